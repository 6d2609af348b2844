// Lists chunks: takes cases from standard input, at most 65,536 bytes, and writes for each a line, the refusal and the length in
// decimal, and then all output bytes lent and a line feed; . is what stands there before. A case is, all numbers low byte first:
//   2 bytes length, the chunk, 1 byte length, the chunk name, 1 byte: 1 for a full listing, 1 byte how many words are held back,
//   2 bytes output bytes lent
// The chunk is read under the empty name, so that the chunk name is the listing's.
#![tactic(auto)]

use format::Written;
use listing::list_function;
use std::io;
use std::io::Write;
use test_records::{Records, first};
use undump::{measure, store};

// The most words and text bytes of a store.
const ROOM: usize = 4096;

const OUT: usize = 65536;

// What stands in the output before.
const UNTOUCHED: u8 = b'.';

// The listing of a chunk, held words of its store held back: the refusal of reading it, or what list_function answers. listchunk's list is apart:
// it has its own name, holds no words back and has a contract, and a program of the library is not built on what the tests share.
fn list(chunk: &[u8], name: &[u8], full: bool, held: usize, out: &mut [u8]) -> Written {
    let mut words = [0; ROOM];
    let mut text = [0; ROOM];
    let m = measure(chunk, b"");
    let u = store(chunk, b"", m.words, m.text, m.read, &mut words, &mut text);
    // The answer is C's, its refusal a number.
    if 0 < u.refusal {
        return Written {
            refusal: u.refusal,
            len: 0,
        };
    }
    let n = u.words.saturating_sub(held);
    list_function(first(&words, n), first(&text, u.text), name, full, out)
}

// One case: lists its chunk, and writes what was answered and left.
fn case(cases: &mut Records, to: &mut impl Write) -> io::Result<()> {
    let chunk = cases.text();
    let name = cases.name();
    let full = cases.byte() == 1;
    let held = usize::from(cases.byte());
    let n = OUT.min(usize::from(cases.half()));
    let mut space = [UNTOUCHED; OUT];
    let out = &mut space[..n];
    let r = list(chunk, name, full, held, out);
    writeln!(to, "{} {}", r.refusal, r.len)?;
    to.write_all(out)?;
    to.write_all(b"\n")
}

fn main(rt: HostRuntime) -> io::Result<()> {
    let mut to = io::writer(&rt);
    test_records::each(&rt, |cases| case(cases, &mut to))
}
