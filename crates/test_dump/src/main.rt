// Dumps trees end to end into one buffer, and reads them back: takes cases from standard input, at most 65,536 bytes. A case is a
// letter and what follows it, all numbers low byte first, a name being 1 byte length and its bytes:
//   T  name, 2 bytes words lent, 2 bytes text bytes lent, 2 bytes length, a chunk: measured, and stored in the store, which has this tree from
//      here on
//   W  2 bytes place, 4 bytes word: the store has this word there from here on
//   D  name, 1 byte strip, 1 byte size_4, 2 bytes n: the store dumped, with n bytes of the buffer lent, from where the dump before it ended
//   U  name, 2 bytes words lent, 2 bytes text bytes lent: the buffer measured and stored, from where the U before it left off
// T, D and U write a line of text: the letter; the refusal and the other numbers of the answer, in decimal; then in hexadecimal all
// words and text bytes, or all bytes, that were lent. In the buffer and in what is lent to U, 7 is what stands there before.
#![tactic(auto)]

use format::Undumped;
use std::io;
use std::io::Write;
use test_records::store::Space;
use test_records::{Records, UNTOUCHED, put};

// The most words and text bytes of the store, and the most that are lent to read back.
const ROOM: usize = 4096;

// The buffer's bytes.
const BUFFER: usize = 32768;

// The buffer, where the dumps in it end, and how far they are read.
// Places, not slices: the same bytes are written here and read there.
#[derive(Drop)]
struct Dumps {
    buffer: [u8; BUFFER],
    end: usize,
    read: usize,
}

// A tree read into the space lent, and its line.
fn read(
    letter: &[u8],
    chunk: &[u8],
    name: &[u8],
    words: &mut [u32],
    text: &mut [u8],
    to: &mut impl Write,
) -> io::Result<Undumped> {
    let m = undump::measure(chunk, name);
    let u = undump::store(chunk, name, m.words, m.text, m.read, words, text);
    to.write_all(letter)?;
    test_output::undumped(u, words, text, to)?;
    Ok(u)
}

// T: the tree of a chunk, read into the store.
fn tree(cases: &mut Records, store: &mut Space<ROOM, ROOM>, to: &mut impl Write) -> io::Result<()> {
    let name = cases.name();
    let (words, text) = store.lend(cases);
    let chunk = cases.text();
    let u = read(b"T ", chunk, name, words, text, to)?;
    store.used_words = u.words;
    store.used_text = u.text;
    Ok(())
}

// D: the store dumped behind the dumps so far, and its line.
fn append(
    cases: &mut Records,
    store: &Space<ROOM, ROOM>,
    dumps: &mut Dumps,
    to: &mut impl Write,
) -> io::Result<()> {
    let name = cases.name();
    let strip = cases.byte() != 0;
    let size_4 = cases.byte() != 0;
    let n = usize::from(cases.half());
    let from = BUFFER.min(dumps.end);
    let until = BUFFER.min(from.saturating_add(n));
    let out = &mut dumps.buffer[from..until];
    let w = dump::dump(store.words(), store.text(), name, strip, size_4, out);
    to.write_all(b"D ")?;
    test_output::written(w, out, to)?;
    dumps.end = from.saturating_add(w.len);
    Ok(())
}

// U: the next tree of the buffer, read back.
fn back(cases: &mut Records, dumps: &mut Dumps, to: &mut impl Write) -> io::Result<()> {
    let name = cases.name();
    let mut space = Space::<ROOM, ROOM>::untouched();
    let (words, text) = space.lend(cases);
    let from = BUFFER.min(dumps.read);
    let rest = &dumps.buffer[from..];
    let u = read(b"U ", rest, name, words, text, to)?;
    dumps.read = from.saturating_add(u.read);
    Ok(())
}

// One case. Another letter ends the cases.
fn case(
    cases: &mut Records,
    store: &mut Space<ROOM, ROOM>,
    dumps: &mut Dumps,
    to: &mut impl Write,
) -> io::Result<()> {
    match cases.byte() {
        b'T' => tree(cases, store, to)?,
        b'W' => {
            let place = usize::from(cases.half());
            put(&mut store.words, place, cases.word());
        }
        b'D' => append(cases, store, dumps, to)?,
        b'U' => back(cases, dumps, to)?,
        _ => cases.end(),
    }
    Ok(())
}

fn main(rt: HostRuntime) -> io::Result<()> {
    let mut to = io::writer(&rt);
    let mut store = Space::new();
    let mut dumps = Dumps {
        buffer: [UNTOUCHED; BUFFER],
        end: 0,
        read: 0,
    };
    test_records::each(&rt, |cases| case(cases, &mut store, &mut dumps, &mut to))
}
