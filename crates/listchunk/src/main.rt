// Lists a chunk: reads the first 16,384 bytes of standard input as a chunk named =stdin, lends 16,384 words, 16,384 text bytes and
// 65,536 output bytes, and writes the plain listing, or the line "refused N".
#![tactic(auto)]

ghost use Rattle.std.specs.Prelude.{◌≡◌, ◌≤◌, length, take, IfOk};
ghost use Rattle.format.specs.Dump.{write_left};
ghost use Rattle.listchunk.specs.ListChunk.{listed_chunk};

use format::Written;
use listing::list_function;
use std::io;
use std::io::Read;
use undump::{measure, store};

// The most bytes of the chunk, the words and the text bytes lent.
const ROOM: usize = 16384;

// The output bytes lent.
const OUT: usize = 65536;

const NAME: [u8; 6] = *b"=stdin";

// The first n of a list, as many as there are: test_records' first again, as a program of the library is not built on what the tests share; Span::of,
// of the library, would name a start that is always 0.
fn first<T>(list: &[T], n: usize) -> &[T]
    ensures { result.now ≡ take n list.now }
{
    list.get(..n).unwrap_or(list)
}

// Lists a chunk into out: the length, or the refusal of reading it or of the listing. Where measure is refused, store is refused by the same number.
#[tactic(auto, using(crate::proofs::Listed::chunk_listed))]
fn list(chunk: &[u8], words: &mut [u32], text: &mut [u8], out: &mut [u8]) -> Written
    ensures { write_left result out.new ≡ listed_chunk chunk.now words.old text.old out.old }
{
    let m = measure(chunk, &NAME);
    let u = store(chunk, &NAME, m.words, m.text, m.read, words, text);
    // The answer is C's, its refusal a number.
    if 0 < u.refusal {
        return Written {
            refusal: u.refusal,
            len: 0,
        };
    }
    let words = first(words, u.words);
    let text = first(text, u.text);
    list_function(words, text, &NAME, false, out)
}

// Writes the listing, or the refusal.
fn tell(r: Written, out: &[u8], rt: &impl Print) -> io::Result<()> {
    if 0 < r.refusal {
        return println!(rt; "refused {}", r.refusal);
    }
    rt.write_all(first(out, r.len))
}

// Standard input, as many bytes as the space has room for. Answers how many they are. test_records reads its own so too: this program, which users
// copy, stands on the library alone.
fn read_full(rt: &impl Input, space: &mut [u8]) -> io::Result<usize>
    ensures { IfOk result (λ n. n ≤ length space.new) }
{
    let room = space.len();
    let n = io::copy(&mut rt.reader().take(room as u64), &mut &mut space[..])?;
    Ok(room.min(n as usize))
}

fn main(rt: HostRuntime) -> io::Result<()> {
    let mut chunk = [0u8; ROOM];
    let n = read_full(&rt, &mut chunk)?;
    let mut words = [0u32; ROOM];
    let mut text = [0u8; ROOM];
    let mut out = [0u8; OUT];
    let r = list(first(&chunk, n), &mut words, &mut text, &mut out);
    tell(r, &out, &rt)
}
