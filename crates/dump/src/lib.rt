// Writing a chunk from a tree in lent memory (ldump.c; in the Rust, dump.rs).
#![tactic(auto)]

pub mod block;
pub mod function;
pub mod item;
pub mod list;

ghost use Rattle.std.specs.Prelude.{◌+◌, ◌*◌, ◌≤◌, ◌≡◌, true};
ghost use Rattle.lent.specs.Memory.{Puts};
ghost use Rattle.format.specs.Tree.{Function};
ghost use Rattle.format.specs.Valid.{Holds};
ghost use Rattle.format.specs.Write.{dump_header, dump_chunk};
ghost use Rattle.format.specs.Dump.{write_left, written_left, dumped};
ghost use Rattle.dump.specs.Step.{seen};

use block::{Options, dump_array};
use format::{DEPTH, Refusal, Written, check_name, width};
use list::{Dumper, Reached};
use proto::store::Store;

impl Options {
    // The signature, then the version, the format and the sizes: 12 bytes.
    fn dump_header<const STORED: bool>(self, out: &mut [u8]) -> usize
        ensures { Puts (dump_header self.size_4) 0 (seen STORED out.old) result (seen STORED out.new) }
    {
        let w = width(self.size_4);
        dump_array::<STORED, 12>(out, 0, [0x1b, b'L', b'u', b'a', 0x51, 0, 1, 4, w, 4, 8, 0])
    }
}

// The chunk of the tree that a store holds, written or only counted. Answers how many bytes it has.
fn dump_chunk<'a, const STORED: bool>(
    store: Store<'a>,
    name: &'a [u8],
    options: Options,
    out: &mut [u8],
) -> usize
    ensures { (f : Function) → Holds store.entry.words.now store.entry.text.now f → Puts (dump_chunk options.strip options.size_4 name.now f) 0 (seen STORED out.old) result (seen STORED out.new) }
{
    let start = Reached {
        at: 0,
        len: options.dump_header::<STORED>(out),
    };
    let dumper = Dumper { store, options };
    dumper.dump_root::<STORED>(out, start, name, DEPTH).len
}

// Whether a space has room for 12 bytes, five for each of so many words, and those of the text and of the chunk name.
fn has_room(space: usize, words: usize, text: usize, name: usize) -> bool
    ensures { result ≡ true → 12 + 5 * words + text + name ≤ space }
{
    space
        .checked_sub(12)
        .and_then(|left| left.checked_sub(text))
        .and_then(|left| left.checked_sub(name))
        .is_some_and(|left| words <= left / 5)
}

// Writes the chunk of the tree that a store holds, where all of it fits. No chunk is longer than has_room asks for: only where there is less room is it
// counted first. Refused by 1, 10, 11.
#[tactic(auto, using(std::proofs::lemmas::Result::err_from_is_err_and, proto::proofs::Calls::refused_name, proto::proofs::Calls::refused_store), unfolding(format::specs::Dump::dumped))]
fn dump_store<'a>(
    store: Store<'a>,
    name: &'a [u8],
    options: Options,
    out: &mut [u8],
) -> Result<usize, Refusal>
    ensures { written_left result out.new ≡ dumped store.entry.words.now store.entry.text.now name.now options.strip options.size_4 out.old }
{
    check_name(name)?;
    store.check_held()?;
    if !has_room(out.len(), store.words.len(), store.text.len(), name.len()) {
        let len = dump_chunk::<false>(store, name, options, &mut []);
        if out.len() < len {
            return Err(Refusal::TooLittleOutput);
        }
    }
    Ok(dump_chunk::<true>(store, name, options, out))
}

// Writes the chunk of a store to lent memory. Refused by 1, 10, 11. The call for C: words and text apart, and the two options.
pub fn dump<'a>(
    words: &[u32],
    text: &'a [u8],
    name: &'a [u8],
    strip: bool,
    size_4: bool,
    out: &mut [u8],
) -> Written
    ensures { write_left result out.new ≡ dumped words.now text.now name.now strip size_4 out.old }
{
    let store = Store { words, text };
    let options = Options { strip, size_4 };
    Written::from(dump_store(store, name, options, out))
}
