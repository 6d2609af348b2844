// Where the parts of a function stand. Past the end a word is 0, and a place may wrap. Each answer is that for every tree that
// stands at the place asked; where none stands it is open, since the calls check the store first.
// No methods of a struct of words and place: tried for word_at, skip and string_at, each step promises also that the words stay, each proof of two steps
// rewrites by that, and Lists, which holds six places in the same words, makes such a struct for each.
ghost use Rattle.std.specs.Prelude.{List, ◌≡◌, ℕ, ◌+◌, ◌*◌, min, length, get_or};
ghost use Rattle.lent.specs.Memory.{far};
ghost use Rattle.format.specs.Tree.{Source, Debug, Parts, Functions, Function, filled};
ghost use Rattle.format.specs.Store.{string, ints, source_piece, debug_piece, function_piece};
ghost use Rattle.format.specs.Stored.{Here};
ghost use Rattle.format.specs.Valid.{Valid};
ghost use Rattle.proto.specs.Walk.{Stands, StandsAt, Skips, SkipsItems, NthAt, Past, Passes, PassesAll, own_place, total, to_code, to_constants, to_functions};

use format::{Constants, Ints, Locals, Names, Span, StoredItem};

// A place in the words, and the number in preorder of the function that begins there.
#[derive(Clone, Copy)]
pub struct Next {
    pub at: usize,
    pub number: usize,
}

// The word at a place.
pub fn word_at(words: &[u32], at: usize) -> u32
    ensures { result ≡ get_or words.now at 0 }
{
    words.get(at).copied().unwrap_or(0)
}

// The place behind n words. `words` is there for the proof alone: there are never so many that a place among them wraps.
#[tactic(auto, using(crate::proofs::Sublists::skips_wrapped))]
pub fn skip(words: &[u32], at: usize, n: usize) -> usize
    ensures { Skips words.now n at result }
{
    at.wrapping_add(n)
}

// The string whose place and length stand at a place.
pub fn string_at(words: &[u32], at: usize) -> Span
    ensures { (s : List ℕ) (t : List ℕ) (to : ℕ) → Stands words.now t at to (string s) → result ≡ record { start = to; len = length s } }
{
    Span {
        start: word_at(words, at) as usize,
        len: word_at(words, skip(words, at, 1)) as usize,
    }
}

// Where the source stands in the text whose words stand at a place: none where it is inherited.
pub(crate) fn own_at(words: &[u32], at: usize) -> Option<Span>
    ensures { (s : Source) (to : ℕ) → Here words.now at ((source_piece s).words to) → result ≡ own_place to s }
{
    if word_at(words, at) == 0 {
        return None;
    }
    Some(string_at(words, skip(words, at, 1)))
}

// The source whose words stand at a place: a function's own, or the one around it. The words are asked for no longer than the call.
pub fn own_source<'a>(words: &[u32], text: &'a [u8], around: &'a [u8], at: usize) -> &'a [u8]
    ensures { (s : Source) (to : ℕ) → Stands words.now text.now at to (source_piece s) → result.now ≡ filled around.now s }
{
    match own_at(words, at) {
        Some(own) => own.of(text),
        None => around,
    }
}

// The source of the function at a place. Beside own_source, whose promise is of a source's piece; this one's is of a function's.
pub fn source_of<'a>(words: &[u32], text: &'a [u8], around: &'a [u8], at: usize) -> &'a [u8]
    ensures { (p : Parts) (fs : Functions) → StandsAt words.now text.now at (function_piece (Function.function p fs)) → result.now ≡ filled around.now p.source }
{
    own_source(words, text, around, at)
}

// The items of the list of words at a place.
pub fn ints_at(words: &[u32], at: usize) -> &[u32]
    ensures { (l : List ℕ) (t : List ℕ) (to : ℕ) → Stands words.now t at to (ints l) → result.now ≡ l }
{
    let items = Span {
        start: skip(words, at, 1),
        len: word_at(words, at) as usize,
    };
    items.of(words)
}

// The place of item i of the list at a place whose items have so many words.
#[inline]
pub fn item_at(words: &[u32], list: usize, size: u32, i: u32) -> usize
    ensures { Skips words.now (1 + size * i) list result }
{
    skip(words, list, 1 + size as usize * i as usize)
}

// The place of item i of the list of such items at a place.
#[inline]
pub fn item_of<T: StoredItem>(words: &[u32], list: usize, i: u32) -> usize
    ensures { Skips words.now (1 + T.WORDS * i) list result }
{
    item_at(words, list, T::WORDS, i)
}

// The same: none where there is no item i.
pub fn nth_at<T: StoredItem>(words: &[u32], list: usize, i: u32) -> Option<usize>
    ensures { NthAt words.now list T.WORDS i result }
{
    if i < word_at(words, list) {
        Some(item_of::<T>(words, list, i))
    } else {
        None
    }
}

// The first function of the list at a place, in the function with a number.
pub fn first_in(words: &[u32], functions: usize, number: usize) -> Next
    ensures { (Skips words.now 1 functions result.at) × (result.number ≡ min (number + 1) far) }
{
    Next {
        at: skip(words, functions, 1),
        number: number.saturating_add(1),
    }
}

// The place behind the list of such items at a place.
#[tactic(auto, using(crate::proofs::Walks::skip_items))]
pub(crate) fn after_list<T: StoredItem>(words: &[u32], at: usize) -> usize
    ensures { SkipsItems words.now T.WORDS at result }
{
    item_of::<T>(words, at, word_at(words, at))
}

// The place of the code of the function at a place.
pub fn code_at(words: &[u32], at: usize) -> usize
    ensures { (p : Parts) (fs : Functions) → Past words.now (to_code p fs) at result }
{
    skip(words, at, 6)
}

// The place of its constants.
pub fn constants_at(words: &[u32], at: usize) -> usize
    ensures { (p : Parts) (fs : Functions) → Past words.now (to_constants p fs) at result }
{
    after_list::<Ints>(words, code_at(words, at))
}

// The place of the functions in it.
pub fn functions_at(words: &[u32], at: usize) -> usize
    ensures { (p : Parts) (fs : Functions) → Past words.now (to_functions p fs) at result }
{
    after_list::<Constants>(words, constants_at(words, at))
}

// The place behind the debug lists.
#[tactic(auto, using(crate::proofs::Walks::past_debug))]
pub fn after_debug(words: &[u32], at: usize) -> usize
    ensures { (d : Debug) → Past words.now (debug_piece d) at result }
{
    let locals = after_list::<Ints>(words, at);
    let upvalues = after_list::<Locals>(words, locals);
    after_list::<Names>(words, upvalues)
}

// Past n functions from s on.
#[cycle(pass_pass_all)]
pub fn pass_all(words: &[u32], s: Next, n: u32, allowance: u32) -> Next
    ensures { PassesAll words.now allowance n s result }
{
    let mut r = s;
    for _ in 0..n {
        r = pass(words, r, allowance);
    }
    r
}

// Past the function at s.
#[cycle(pass_pass_all)]
fn pass(words: &[u32], s: Next, allowance: u32) -> Next
    ensures { (f : Function) → Valid f allowance → Passes words.now (function_piece f) (total f) s result }
{
    if allowance == 0 {
        return s;
    }
    let list = functions_at(words, s.at);
    let n = word_at(words, list);
    let r = pass_all(words, first_in(words, list, s.number), n, allowance - 1);
    Next {
        at: after_debug(words, r.at),
        ..r
    }
}
