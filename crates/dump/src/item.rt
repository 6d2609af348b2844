// The items of a function's lists: how each is written, and how it is counted.
ghost use Rattle.std.specs.Prelude.{ℕ, List, [], Bool};
ghost use Rattle.format.specs.Tree.{Constant as Value};
ghost use Rattle.format.specs.Tree.{Local};
ghost use Rattle.format.specs.Store.{Piece, string, constant_piece, local_piece};
ghost use Rattle.format.specs.Write.{dump_text, dump_constant, dump_local};
ghost use Rattle.dump.specs.Step.{Dumps, progress};

use crate::list::{Dumper, Reached};
use format::{Constants, Locals, Names};
use std::marker::PhantomData;

// A kind of items. proto, load_function and listing_headers have such a trait each, as proto's says. The impls only name a method: the methods stand
// with the other steps of Dumper, which they call.
pub trait Item {
    ghost Value: { Type 0 };

    ghost piece: { Value → Piece };

    ghost bytes: { Bool → Value → List ℕ };

    // Writes one, past it.
    fn dump(d: Dumper, out: &mut [u8], s: Reached) -> Reached
        ensures { (v : Value) → Dumps d.entry (piece v) (bytes d.entry.options.size_4 v) (progress s out.old) (progress result out.new) };
}

// A kind that says too how its items are counted, with nothing written. Not in Item, which asks no more than how one is written; and not by Item's method,
// since a trait's method cannot have a const parameter.
pub trait CountedItem: Item {
    // The bytes of one counted, past it.
    fn count(d: Dumper, s: Reached) -> Reached
        ensures { (v : Self.Value) → Dumps d.entry (Self.piece v) (Self.bytes d.entry.options.size_4 v) (progress s []) (progress result []) };
}

// Any kind, its items counted by writing them to no space. Tried: count with that body in one trait. It is proved for a kind of any size, so that a kind
// with an array of a parameter's length was refused.
pub struct ByWriting<T>(PhantomData<T>);

impl<T: Item> Item for ByWriting<T> {
    ghost Value = { T.Value };

    ghost piece = { T.piece };

    ghost bytes = { T.bytes };

    fn dump(d: Dumper, out: &mut [u8], s: Reached) -> Reached {
        T::dump(d, out, s)
    }
}

impl<T: Item> CountedItem for ByWriting<T> {
    fn count(d: Dumper, s: Reached) -> Reached {
        T::dump(d, &mut [], s)
    }
}

impl Item for Constants {
    ghost Value = { Value };

    ghost piece = { constant_piece };

    ghost bytes = { dump_constant };

    fn dump(d: Dumper, out: &mut [u8], s: Reached) -> Reached {
        d.dump_constant::<true>(out, s)
    }
}

impl CountedItem for Constants {
    fn count(d: Dumper, s: Reached) -> Reached {
        d.dump_constant::<false>(&mut [], s)
    }
}

impl Item for Locals {
    ghost Value = { Local };

    ghost piece = { local_piece };

    ghost bytes = { dump_local };

    fn dump(d: Dumper, out: &mut [u8], s: Reached) -> Reached {
        d.dump_local::<true>(out, s)
    }
}

impl CountedItem for Locals {
    fn count(d: Dumper, s: Reached) -> Reached {
        d.dump_local::<false>(&mut [], s)
    }
}

impl Item for Names {
    ghost Value = { List ℕ };

    ghost piece = { string };

    ghost bytes = { dump_text };

    fn dump(d: Dumper, out: &mut [u8], s: Reached) -> Reached {
        d.dump_name::<true>(out, s)
    }
}

impl CountedItem for Names {
    fn count(d: Dumper, s: Reached) -> Reached {
        d.dump_name::<false>(&mut [], s)
    }
}
