// Asks where sources stand in stores, most of them broken: takes cases from standard input, at most 65,536 bytes, and writes a line of
// text for each question: the refusal, in_text, start and end, in decimal; then the source's bytes in hexadecimal. A case is a
// letter and what follows it, all numbers low byte first:
//   S  a store, as records has it: the store from here on
//   W  2 bytes place, 4 bytes word: the question of place 0, with another word there
//   T  2 bytes place, 1 byte: the same with another text byte
//   N  4 bytes words, 2 bytes text bytes: the same with so many lent
//   Q  4 bytes place, 1 byte length, the chunk name: the question of that place
#![tactic(auto)]

use proto::place::{source, source_at};
use std::io;
use std::io::Write;
use test_output::all_text;
use test_records::store::Space;
use test_records::{Records, first, put};

// The most words and text bytes of a store.
const WORDS: usize = 65600;

const TEXT: usize = 512;

// Where the chunk name stands in the text's space, behind texts of up to so many bytes. It stays there.
const NAME: usize = 256;

// The question, and its line.
fn ask(
    words: &[u32],
    text: &[u8],
    name: &[u8],
    place: usize,
    to: &mut impl Write,
) -> io::Result<()> {
    let r = source_at(words, text, name, place);
    write!(to, "{} {} {} {} :", r.refusal, r.in_text, r.start, r.end)?;
    all_text(source(words, text, name, place), to)?;
    to.write_all(b"\n")
}

// One case. Another letter ends the cases.
fn case(
    cases: &mut Records,
    space: &mut Space<WORDS, TEXT>,
    to: &mut impl Write,
) -> io::Result<()> {
    match cases.byte() {
        b'S' => space.read(cases),
        b'W' => {
            let place = usize::from(cases.half());
            let old = put(&mut space.words, place, cases.word());
            ask(space.words(), space.text(), b"", 0, to)?;
            put(&mut space.words, place, old);
        }
        b'T' => {
            let place = usize::from(cases.half());
            let old = put(&mut space.text, place, cases.byte());
            ask(space.words(), space.text(), b"", 0, to)?;
            put(&mut space.text, place, old);
        }
        b'N' => {
            let words = first(&space.words, cases.word() as usize);
            let text = first(&space.text, usize::from(cases.half()));
            ask(words, text, b"", 0, to)?;
        }
        b'Q' => {
            let place = cases.word() as usize;
            let n = usize::from(cases.byte());
            let name = cases.part(n);
            space.text[NAME..NAME + name.len()].copy_from_slice(name);
            let text = &space.text[..];
            let name = first(&text[NAME..], n);
            let text = first(text, space.used_text);
            ask(first(&space.words, space.used_words), text, name, place, to)?;
        }
        _ => cases.end(),
    }
    Ok(())
}

fn main(rt: HostRuntime) -> io::Result<()> {
    let mut to = io::writer(&rt);
    let mut space = Space::new();
    test_records::each(&rt, |cases| case(cases, &mut space, &mut to))
}
