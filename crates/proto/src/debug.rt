// What the debug lists of a store hold. Where none stands at the place asked the answer is open, since the calls check the store first.
ghost use Rattle.std.specs.Prelude.{◌≡◌, List, ℕ};
ghost use Rattle.format.specs.Tree.{Local};
ghost use Rattle.format.specs.Store.{list, string, local_piece};
ghost use Rattle.proto.specs.Walk.{item, StandsAt};
ghost use Rattle.proto.specs.Constants.{read};
ghost use Rattle.proto.specs.Debug.{text_of, local_of};

use crate::walk::{nth_at, skip, string_at, word_at};
use format::{Names, Span};

// A local: where its name stands in the text, and the pcs from which and before which it is active. Not local_records' LocalRecord, which is C's struct.
#[derive(Clone, Copy)]
pub struct LocalVar {
    pub name: Span,
    pub start: u32,
    pub end: u32,
}

// The local at a place.
pub fn local_at(words: &[u32], at: usize) -> LocalVar
    ensures { (text : List ℕ) (v : Local) → StandsAt words.now text at (local_piece v) → local_of text result ≡ v }
{
    LocalVar {
        name: string_at(words, at),
        start: word_at(words, skip(words, at, 2)),
        end: word_at(words, skip(words, at, 3)),
    }
}

// Where the name of an upvalue stands in the text, by its index in the list at a place.
pub fn upvalue_of(words: &[u32], upvalues: usize, i: u32) -> Option<Span>
    ensures { (t : List ℕ) (l : List (List ℕ)) → StandsAt words.now t upvalues (list string l) → read (text_of t) result ≡ item l i }
{
    Some(string_at(words, nth_at::<Names>(words, upvalues, i)?))
}
