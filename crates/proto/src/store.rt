// A tree in lent memory: its words, and its text. That each word and each byte fits is known of the slices of which a Store is made.
ghost use Rattle.std.specs.Prelude.{◌≡◌, List, ℕ, ◌<◌, ◌^◌, slice_index};
ghost use Rattle.format.specs.Store.{string, source_piece, function_piece};
ghost use Rattle.format.specs.Tree.{Source, Parts, Functions, Function, filled};
ghost use Rattle.proto.specs.Walk.{Stands, StandsAt};

use crate::walk::{own_source, source_of, string_at};

#[derive(Clone, Copy)]
pub struct Store<'a> {
    pub words: &'a [u32],
    pub text: &'a [u8],
    pub ghost words_fit: { (i : ℕ) → slice_index words.now i < 2 ^ 32 },
    pub ghost text_fits: { (i : ℕ) → slice_index text.now i < 256 },
}

impl<'a> Store<'a> {
    // The string whose place and length stand at a place.
    pub fn string_at(self, at: usize) -> &'a [u8]
        ensures { (s : List ℕ) (to : ℕ) → Stands self.entry.words.now self.entry.text.now at to (string s) → result.now ≡ s }
    {
        string_at(self.words, at).of(self.text)
    }

    // The source whose words stand at a place: a function's own, or the one around it.
    pub fn own_source(self, around: &'a [u8], at: usize) -> &'a [u8]
        ensures { (s : Source) (to : ℕ) → Stands self.entry.words.now self.entry.text.now at to (source_piece s) → result.now ≡ filled around.now s }
    {
        own_source(self.words, self.text, around, at)
    }

    // The source of the function at a place.
    pub fn source_of(self, around: &'a [u8], at: usize) -> &'a [u8]
        ensures { (p : Parts) (fs : Functions) → StandsAt self.entry.words.now self.entry.text.now at (function_piece (Function.function p fs)) → result.now ≡ filled around.now p.source }
    {
        source_of(self.words, self.text, around, at)
    }
}
