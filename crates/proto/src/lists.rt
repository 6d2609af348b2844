// Where the lists of a function stand. Its lines stand behind the functions in it, which are walked through; on the way the places of the lines of
// the first function, of the first in that and so on are kept, so that functions one inside the other are walked through once. Where no function stands at the
// place asked the answer is open, since the calls check the store first.
ghost use Rattle.std.specs.Prelude.{◌≡◌, IfSome};
ghost use Rattle.format.specs.Tree.{Parts, Functions};
ghost use Rattle.format.specs.Valid.{depth, ValidAll};
ghost use Rattle.proto.specs.Lists.{ListsFound, LinesAt, LinesKept, WalksToLines};

use crate::child::Children;
use crate::store::Store;
use crate::walk::{
    Next, after_debug, after_list, code_at, constants_at, first_in, functions_at, pass_all, word_at,
};
use format::{DEPTH, Ints, Locals};

// The lists of a function: the store that they are in, and their places, each the place of its count.
#[derive(Clone, Copy)]
pub struct Lists<'a> {
    pub store: Store<'a>,
    pub code: usize,
    pub constants: usize,
    pub functions: usize,
    pub lines: usize,
    pub locals: usize,
    pub upvalues: usize,
}

impl<'a> Lists<'a> {
    // The functions in the function, whose number this is, each with so many nested at most.
    pub fn children(self, number: usize, allowance: u32) -> Children<'a>
        ensures words { result.words.now ≡ self.entry.store.words.now }
        ensures places { (result.list ≡ self.entry.functions) × (result.number ≡ number) × (result.allowance ≡ allowance) }
    {
        Children {
            words: self.store.words,
            list: self.functions,
            number,
            allowance,
        }
    }
}

// The place of a function, and that of its lines.
#[derive(Clone, Copy)]
pub struct Kept {
    pub begin: usize,
    pub lines: usize,
}

// A store, and the places of lines that are kept on a walk through it: for each number of functions nested at most, below N. Four methods say that the
// store stays: what is kept is true of it alone, so both stand in the struct that is lent, with the ghost field.
#[derive(Drop)]
pub struct Way<'a, const N: usize> {
    pub store: Store<'a>,
    kept: [Option<Kept>; N],
    ghost fits: { LinesKept store.words.now kept },
}

impl<'a, const N: usize> Way<'a, N> {
    // Through a store, with nothing kept.
    pub fn new(store: Store<'a>) -> Self
        ensures { result.store ≡ store.entry }
    {
        Way {
            store,
            kept: [None; N],
        }
    }

    // Keeps where the lines of the function at a place are.
    #[tactic(auto, using(crate::proofs::ListPlaces::kept_more))]
    fn keep(&mut self, allowance: u32, begin: usize, lines: usize)
        requires { LinesAt self.old.store.words.now allowance begin lines }
        ensures { self.new.store ≡ self.old.store }
    {
        let i = allowance as usize;
        if i < N {
            self.kept[i] = Some(Kept { begin, lines });
        }
    }

    // The lines kept of the function at a place.
    fn kept_lines(&self, allowance: u32, at: usize) -> Option<usize>
        ensures { IfSome result (LinesAt self.now.store.words.now allowance at) }
    {
        match self.kept.get(allowance as usize) {
            Some(Some(k)) if k.begin == at => Some(k.lines),
            _ => None,
        }
    }

    // From the function at s to its lines, through the functions in it, with so many nested at most.
    fn walk_lines(&mut self, s: Next, allowance: u32) -> Next
        ensures store { self.new.store ≡ self.old.store }
        ensures walks { WalksToLines self.old.store.words.now allowance s result }
    {
        let words = self.store.words;
        let list = functions_at(words, s.at);
        let n = word_at(words, list);
        let first = first_in(words, list, s.number);
        if n == 0 {
            self.keep(allowance, s.at, first.at);
            return first;
        }
        if allowance == 0 {
            return first;
        }
        let inner = self.walk_lines(first, allowance - 1);
        let next = Next {
            at: after_debug(words, inner.at),
            ..inner
        };
        let r = pass_all(words, next, n - 1, allowance);
        self.keep(allowance, s.at, r.at);
        r
    }

    // The lines of the function at a place.
    fn find_lines(&mut self, at: usize, allowance: u32) -> usize
        ensures store { self.new.store ≡ self.old.store }
        ensures found { LinesAt self.old.store.words.now allowance at result }
    {
        match self.kept_lines(allowance, at) {
            Some(lines) => lines,
            None => self.walk_lines(Next { at, number: 0 }, allowance).at,
        }
    }

    // The lists of the function at a place, in which so many functions are nested at most.
    pub fn lists(&mut self, at: usize, allowance: u32) -> Lists<'a>
        ensures way { self.new.store ≡ self.old.store }
        ensures store { result.store ≡ self.old.store }
        ensures lists { (p : Parts) (fs : Functions) → ValidAll fs allowance → ListsFound at p fs result }
    {
        let store = self.store;
        let words = store.words;
        let lines = self.find_lines(at, allowance);
        let locals = after_list::<Ints>(words, lines);
        let upvalues = after_list::<Locals>(words, locals);
        Lists {
            store,
            code: code_at(words, at),
            constants: constants_at(words, at),
            functions: functions_at(words, at),
            lines,
            locals,
            upvalues,
        }
    }
}

impl<'a> Store<'a> {
    // The lists of the function at a place, with nothing kept.
    pub fn lists_at(self, at: usize) -> Lists<'a>
        ensures store { result.store ≡ self.entry }
        ensures lists { (p : Parts) (fs : Functions) → ValidAll fs depth → ListsFound at p fs result }
    {
        Way::<0>::new(self).lists(at, DEPTH)
    }
}
