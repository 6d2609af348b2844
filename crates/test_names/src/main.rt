// Asks the naming calls about stores: takes cases from standard input, at most 65,536 bytes, and writes a line of text for each
// question: the numbers of the answer in decimal; then, but for X, the bytes that stand in the output then, in hexadecimal. A case
// is a letter and what follows it, all numbers low byte first:
//   S  a store, as records has it: the store from here on
// or a question, with 1 byte n, an output of n bytes of 7, and 4 bytes place:
//   X  8 bytes lastpc, 4 bytes register: symbexec
//   L  8 bytes number, 8 bytes pc: get_local_name
//   R  8 bytes number, 8 bytes pc, 1 byte k: get_local_name_in with k records, at most 8, of 8 that say 7; then all 8, in hexadecimal
//   K  4 bytes c: kname
//   O  8 bytes pc, 4 bytes register: getobjname
#![tactic(auto)]

use debug_info::answer::Named;
use debug_info::{get_local_name, getobjname, kname, symbexec};
use local_records::get_local_name_in;
use local_records::record::LocalRecord;
use std::io;
use std::io::Write;
use test_output::{all_text, all_words, written};
use test_records::store::Space;
use test_records::{Records, UNTOUCHED};

// The most words and text bytes of a store.
const WORDS: usize = 65600;

const TEXT: usize = 4096;

// The most output bytes.
const OUT: usize = 256;

// A record that no local has.
const NO_LOCAL: LocalRecord = LocalRecord {
    place: 7,
    len: 7,
    start: 7,
    end: 7,
};

// What a call that gives a name answered and left.
fn tell(r: Named, out: &[u8], to: &mut impl Write) -> io::Result<()> {
    write!(to, "{} {} {} :", r.refusal, r.kind, r.len)?;
    all_text(out, to)
}

// The rest of an R, from place on.
fn ask_in(
    cases: &mut Records,
    space: &Space<WORDS, TEXT>,
    out: &mut [u8],
    to: &mut impl Write,
) -> io::Result<()> {
    let words = space.words();
    let text = space.text();
    let place = cases.word() as usize;
    let number = cases.long();
    let pc = cases.long();
    let mut records = [NO_LOCAL; 8];
    let k = records.len().min(usize::from(cases.byte()));
    let r = get_local_name_in(&mut records[..k], words, text, place, number, pc, out);
    tell(r, out, to)?;
    for r in records {
        all_words(&[r.place, r.len, r.start, r.end], to)?;
    }
    to.write_all(b"\n")
}

// A question, its letter read: kind is that letter of the input. Another letter has none, nor a place, so that each reads its own.
fn ask(
    kind: u8,
    cases: &mut Records,
    space: &Space<WORDS, TEXT>,
    out: &mut [u8],
    to: &mut impl Write,
) -> io::Result<()> {
    let words = space.words();
    let text = space.text();
    match kind {
        b'X' => {
            let place = cases.word() as usize;
            let r = symbexec(words, text, place, cases.long(), cases.word());
            writeln!(to, "{} {} ", r.refusal, r.instruction)
        }
        b'L' => {
            let place = cases.word() as usize;
            let r = get_local_name(words, text, place, cases.long(), cases.long(), out);
            tell(r, out, to)?;
            to.write_all(b"\n")
        }
        b'R' => ask_in(cases, space, out, to),
        b'K' => {
            let place = cases.word() as usize;
            let r = kname(words, text, place, cases.word(), out);
            written(r, out, to)
        }
        b'O' => {
            let place = cases.word() as usize;
            let r = getobjname(words, text, place, cases.long(), cases.word(), out);
            tell(r, out, to)?;
            to.write_all(b"\n")
        }
        _ => Ok(()),
    }
}

// One case. Another letter is passed over.
fn case(
    cases: &mut Records,
    space: &mut Space<WORDS, TEXT>,
    to: &mut impl Write,
) -> io::Result<()> {
    let kind = cases.byte();
    if kind == b'S' {
        space.read(cases);
        return Ok(());
    }
    let n = OUT.min(usize::from(cases.byte()));
    let mut out = [UNTOUCHED; OUT];
    ask(kind, cases, space, &mut out[..n], to)
}

fn main(rt: HostRuntime) -> io::Result<()> {
    let mut to = io::writer(&rt);
    let mut space = Space::new();
    test_records::each(&rt, |cases| case(cases, &mut space, &mut to))
}
