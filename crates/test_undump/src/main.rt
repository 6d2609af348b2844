// Reads chunks: takes cases from standard input, at most 65,536 bytes, and writes a line of text for each: the refusal, the width, the words,
// the text bytes and the bytes read, in decimal, that measure answers; the same that store answers, given these; then all words lent and
// all text bytes lent, in hexadecimal, where 7 is what stands there before. A case is, all numbers low byte first:
//   2 bytes length, the chunk, 1 byte length, the chunk name, 2 bytes words lent, 2 bytes text bytes lent
#![tactic(auto)]

use std::io;
use std::io::Write;
use test_records::Records;
use test_records::store::Space;

// The most words and the most text bytes that are lent.
const ROOM: usize = 4096;

// Measures a chunk and stores it in the space lent, and writes what was found.
fn read(
    chunk: &[u8],
    name: &[u8],
    words: &mut [u32],
    text: &mut [u8],
    to: &mut impl Write,
) -> io::Result<()> {
    let m = undump::measure(chunk, name);
    test_output::answer(m, to)?;
    to.write_all(b"; ")?;
    let u = undump::store(chunk, name, m.words, m.text, m.read, words, text);
    test_output::undumped(u, words, text, to)
}

// One case.
fn case(cases: &mut Records, to: &mut impl Write) -> io::Result<()> {
    let chunk = cases.text();
    let name = cases.name();
    let mut space = Space::<ROOM, ROOM>::untouched();
    let (words, text) = space.lend(cases);
    read(chunk, name, words, text, to)
}

fn main(rt: HostRuntime) -> io::Result<()> {
    let mut to = io::writer(&rt);
    test_records::each(&rt, |cases| case(cases, &mut to))
}
