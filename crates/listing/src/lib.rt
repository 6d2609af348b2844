// The listing of a store (listing.rs).
#![tactic(auto)]

pub mod code;
pub mod function;

ghost use Rattle.std.specs.Prelude.{◌≡◌};
ghost use Rattle.lent.specs.Memory.{Puts};
ghost use Rattle.format.specs.Tree.{Function};
ghost use Rattle.format.specs.Valid.{Holds};
ghost use Rattle.format.specs.Dump.{write_left, written_left};
ghost use Rattle.listing.specs.Listing.{list_function, listed};

use format::{DEPTH, Refusal, Written, check_name};
use function::Lister;
use lent::{Writer, write_whole};
use proto::lists::Way;
use proto::store::Store;
use proto::walk::Next;

// The listing of the tree that a store holds. Answers how many bytes it has.
fn list_root<'a>(store: Store<'a>, name: &'a [u8], full: bool, out: &mut [u8]) -> usize
    ensures { (f : Function) → Holds store.entry.words.now store.entry.text.now f → Puts (list_function f full name.now) 0 out.old result out.new }
{
    let mut w = Writer { out, at: 0 };
    let root = Next { at: 0, number: 1 };
    let mut lister = Lister {
        way: Way::new(store),
        full,
    };
    lister.list(&mut w, name, root, DEPTH);
    w.at
}

// Writes the listing of the tree that a store holds, where all of it fits. Refused by 1, 10, 11.
#[tactic(auto, using(proto::proofs::Calls::refused_name, proto::proofs::Calls::refused_store, proto::proofs::Calls::all_written), unfolding(crate::specs::Listing::listed))]
fn list_store<'a>(
    store: Store<'a>,
    name: &'a [u8],
    full: bool,
    out: &mut [u8],
) -> Result<usize, Refusal>
    ensures { written_left result out.new ≡ listed store.entry.words.now store.entry.text.now name.now full out.old }
{
    check_name(name)?;
    store.check_held()?;
    write_whole(out, |o| list_root(store, name, full, o)).ok_or(Refusal::TooLittleOutput)
}

// The call for C, which has words and text apart: writes the listing of a store to lent memory. Refused by 1, 10, 11.
pub fn list_function<'a>(
    words: &[u32],
    text: &'a [u8],
    name: &'a [u8],
    full: bool,
    out: &mut [u8],
) -> Written
    ensures { write_left result out.new ≡ listed words.now text.now name.now full out.old }
{
    Written::from(list_store(Store { words, text }, name, full, out))
}
