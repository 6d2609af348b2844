// The constants of a store. Where none stands at the place asked the answer is open, since the calls check the store first.
ghost use Rattle.std.specs.Prelude.{◌≡◌, List, ℕ};
ghost use Rattle.format.specs.Tree.{Constant as Value};
ghost use Rattle.format.specs.Store.{list, constant_piece};
ghost use Rattle.format.specs.Constants.{value_of};
ghost use Rattle.proto.specs.Walk.{item, StandsAt};
ghost use Rattle.proto.specs.Constants.{ConstantAt, read};

use crate::formed::is_within;
use crate::walk::nth_at;
use format::{Constant, Constants, Span, StoredItem, Tag};

// The constant at a place, a string by its place and length in the text.
#[tactic(auto, using(crate::proofs::Items::constant_away))]
pub fn constant_at(words: &[u32], at: usize) -> Constant
    ensures { ConstantAt words.now at result }
{
    if !is_within(words.len(), at, Constants::WORDS as usize) {
        return Constant::Nil;
    }
    let (a, b) = (words[at + 1], words[at + 2]);
    match Tag::try_from(words[at]) {
        Ok(Tag::Nil) => Constant::Nil,
        Ok(Tag::Bool) => Constant::Bool(a != 0),
        Ok(Tag::Num) => Constant::Num(a, b),
        _ => Constant::String(Span {
            start: a as usize,
            len: b as usize,
        }),
    }
}

// The constant of an index, of the list at a place.
pub fn constant_of(words: &[u32], constants: usize, i: u32) -> Option<Constant>
    ensures { (t : List ℕ) (l : List Value) → StandsAt words.now t constants (list constant_piece l) → read (value_of t) result ≡ item l i }
{
    Some(constant_at(words, nth_at::<Constants>(words, constants, i)?))
}
