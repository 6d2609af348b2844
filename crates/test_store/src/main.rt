// Stores chunks, given any three numbers: takes cases from standard input, at most 65,536 bytes, and writes a line of text for each: the
// refusal, the width, the words, the text bytes and the bytes read that store answers, in decimal; then all words lent and all text bytes
// lent, in hexadecimal, where 7 is what stands there before. A case is, all numbers low byte first:
//   2 bytes how many runs; for each 4 bytes times, 1 byte length, bytes: the chunk is the bytes of each run so many times, run after run
//   1 byte length, the chunk name; 8 bytes each need_words, need_text, need_read; 2 bytes words lent, 2 bytes text bytes lent
#![tactic(auto)]

use lent::Writer;
use std::io;
use std::io::Write;
use test_records::store::Space;
use test_records::{Records, first};

// The most bytes of a chunk: as many as a tree above the limits needs, whose bytes take three words or text bytes each.
const MOST: usize = 5700000;

// The most words and the most text bytes that are lent.
const ROOM: usize = 4096;

// The chunk of a case's runs, as much of it as the space has room for.
fn made<'a>(cases: &mut Records, space: &'a mut [u8]) -> &'a [u8] {
    let mut w = Writer { out: space, at: 0 };
    for _ in 0..cases.half() {
        let times = cases.word();
        let bytes = cases.name();
        for _ in 0..times {
            w.put_bytes(bytes);
        }
    }
    let Writer { out, at } = w;
    first(out, at)
}

// One case.
fn case(cases: &mut Records, space: &mut [u8], to: &mut impl Write) -> io::Result<()> {
    let chunk = made(cases, space);
    let name = cases.name();
    let need_words = cases.long();
    let need_text = cases.long();
    let need_read = cases.long();
    let mut store = Space::<ROOM, ROOM>::untouched();
    let (words, text) = store.lend(cases);
    let u = undump::store(chunk, name, need_words, need_text, need_read, words, text);
    test_output::undumped(u, words, text, to)
}

fn main(rt: HostRuntime) -> io::Result<()> {
    let mut to = io::writer(&rt);
    let mut space = vec![in rt.alloc(); 0u8; MOST]?;
    test_records::each(&rt, |cases| case(cases, &mut space, &mut to))
}
