// The function that begins at a place of a store, and its source.
ghost use Rattle.std.specs.Prelude.{◌≡◌, ℕ, ◌-◌};
ghost use Rattle.format.specs.Tree.{Source, Function};
ghost use Rattle.format.specs.Store.{source_piece};
ghost use Rattle.format.specs.Valid.{Valid};
ghost use Rattle.format.specs.Refusal.{RefusedBy};
ghost use Rattle.format.specs.Stored.{Here, part};
ghost use Rattle.proto.specs.Places.{span_of, Search, place_refusal, source_result, found_answer, source_answer, source_part};

use crate::store::Store;
use crate::walk::{after_debug, functions_at, own_at, skip, word_at};
use format::{DEPTH, Refusal, Span, check_name};
use std::ops::ControlFlow;

// The bytes from a place on and before another, as far as they go.
fn between(bytes: &[u8], start: usize, end: usize) -> &[u8]
    ensures { result.now ≡ part bytes.now start (end - start) }
{
    let len = end.saturating_sub(start);
    Span { start, len }.of(bytes)
}

// Where a source stands, in the text or in the chunk name: from a place on, and before another, as C is told. No Span: the end would be a sum that may not fit.
#[derive(Clone, Copy)]
pub enum SourceSpan {
    Text(usize, usize),
    Name(usize, usize),
}

// The answer of source_at, as C is told it: the refusal is 0 where there is none, in_text 1 where the source stands in the text and 0 where in the chunk name.
#[repr(C)]
#[derive(Clone, Copy)]
pub struct SourceAt {
    pub refusal: u32,
    pub in_text: u32,
    pub start: usize,
    pub end: usize,
}

impl From<Result<SourceSpan, Refusal>> for SourceAt {
    ghost from_gives = { λ r a. a ≡ source_result r };

    fn from(r: Result<SourceSpan, Refusal>) -> SourceAt {
        let (refusal, in_text, start, end) = match r {
            Ok(SourceSpan::Text(start, end)) => (0, 1, start, end),
            Ok(SourceSpan::Name(start, end)) => (0, 0, start, end),
            Err(e) => (e.into(), 0, 0, 0),
        };
        SourceAt {
            refusal,
            in_text,
            start,
            end,
        }
    }
}

// The source of the function at a place: its own, or the one around it.
#[tactic(auto, using(crate::proofs::Places::span_own))]
fn own_span(words: &[u32], at: usize, around: SourceSpan) -> SourceSpan
    ensures { (s : Source) (to : ℕ) → Here words.now at ((source_piece s).words to) → result ≡ span_of around to s }
{
    match own_at(words, at) {
        Some(Span { start, len }) => SourceSpan::Text(start, start.saturating_add(len)),
        None => around,
    }
}

// Looks for the function that begins at a place, in the one that stands at another. Breaks with where its source stands, or goes on behind those searched.
fn seek(
    words: &[u32],
    at: usize,
    place: usize,
    around: SourceSpan,
    allowance: u32,
) -> ControlFlow<SourceSpan, usize>
    ensures { (f : Function) → Valid f allowance → Search words.now place around f at result }
{
    if allowance == 0 {
        return ControlFlow::Continue(at);
    }
    let source = own_span(words, at, around);
    if place == at {
        return ControlFlow::Break(source);
    }
    let list = functions_at(words, at);
    let n = word_at(words, list);
    let mut next = skip(words, list, 1);
    for _ in 0..n {
        next = seek(words, next, place, source, allowance - 1)?;
    }
    ControlFlow::Continue(after_debug(words, next))
}

impl<'a> Store<'a> {
    // Where the source of the function at a place stands, under a chunk name that is good: refused by 10, 12.
    #[tactic(auto, using(std::proofs::lemmas::Result::err_from_is_err_and, crate::proofs::Sources::find_refused, crate::proofs::Sources::find_sought))]
    fn find(self, name: &[u8], place: usize) -> Result<SourceSpan, Refusal>
        ensures { source_result result ≡ found_answer self.entry.words.now self.entry.text.now name.now place }
    {
        self.check_held()?;
        let around = SourceSpan::Name(0, name.len());
        seek(self.words, 0, place, around, DEPTH)
            .break_value()
            .ok_or(Refusal::NoFunction)
    }

    // The same under any chunk name: refused by 1, 10, 12.
    #[tactic(auto, using(std::proofs::lemmas::Result::err_from_is_err_and, crate::proofs::Sources::name_refused, crate::proofs::Sources::source_found))]
    fn find_source(self, name: &[u8], place: usize) -> Result<SourceSpan, Refusal>
        ensures { source_result result ≡ source_answer self.entry.words.now self.entry.text.now name.now place }
    {
        check_name(name)?;
        self.find(name, place)
    }

    // Whether it holds a tree, and a function begins at a place: refused by 10, 12.
    #[tactic(auto, using(std::proofs::lemmas::Result::err_from_is_err_and, crate::proofs::Sources::place_refused))]
    pub fn has_function(self, place: usize) -> Result<(), Refusal>
        ensures { RefusedBy (place_refusal self.entry.words.now self.entry.text.now place) result }
    {
        self.find(&[], place)?;
        Ok(())
    }
}

// Where the source of the function at a place stands. Refused by 1, 10, 12. A call for C, as source is: the words and the text are told apart.
pub fn source_at(words: &[u32], text: &[u8], name: &[u8], place: usize) -> SourceAt
    ensures { result ≡ source_answer words.now text.now name.now place }
{
    SourceAt::from(Store { words, text }.find_source(name, place))
}

// The source itself, a part of the text or of the chunk name, empty where source_at refuses.
pub fn source<'a>(words: &[u32], text: &'a [u8], name: &'a [u8], place: usize) -> &'a [u8]
    ensures { result.now ≡ source_part words.now text.now name.now place }
{
    match (Store { words, text }).find_source(name, place) {
        Ok(SourceSpan::Text(start, end)) => between(text, start, end),
        Ok(SourceSpan::Name(start, end)) => between(name, start, end),
        Err(_) => &[],
    }
}
