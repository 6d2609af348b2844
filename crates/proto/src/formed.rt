// Whether a store is well formed: one walk over its words, and over its text beside them.
ghost use Rattle.std.specs.Prelude.{◌≡◌, true, List, ℕ};
ghost use Rattle.lent.specs.Memory.{Word, Bytes};
ghost use Rattle.utf8.specs.Utf8.{is_ascii};
ghost use Rattle.format.specs.Store.{Piece, plain, string, list, ints, source_piece, constant_piece, local_piece, debug_piece, function_piece, children_piece};
ghost use Rattle.format.specs.Store.{word as word_piece};
ghost use Rattle.format.specs.Tree.{Constant as Value, Local};
ghost use Rattle.format.specs.Valid.{Name, Valid, ValidSource, ValidConstant, ValidLocal, ValidList, ValidDebug};
ghost use Rattle.format.specs.Dump.{store_refusal};
ghost use Rattle.format.specs.Refusal.{RefusedBy};
ghost use Rattle.proto.specs.Formed.{Checks, Both, beside, Counts, Many, Room, Within, Three, three, ValidChildren};

use crate::store::Store;
use crate::walk::word_at;
use format::{Constants, DEPTH, LIMIT, Locals, MOST, Names, Refusal, Span, StoredItem};

// The greatest word.
const ANY: u32 = u32::MAX;

// The places reached in the words and in the text.
#[derive(Clone, Copy, PartialEq)]
pub struct Places {
    pub at: usize,
    pub to: usize,
}

// A store that is checked, and whether all of its text is ASCII. Each step goes on from the places reached, past what it checks, and answers None where that
// is not well formed.
#[derive(Clone, Copy)]
struct Checker<'a> {
    store: Store<'a>,
    ascii: bool,
    ghost ascii_holds: { ascii ≡ true → is_ascii store.text.now ≡ true },
}

// What a list holds: how an item is checked. load_function, dump and listing_headers have an Item of their own, and format's StoredItem is not above this one: a ghost
// member's type cannot name a member of a supertrait (only a law's can), and valid is of Value.
trait Item {
    ghost Value: { Type 0 };

    ghost valid: { Value → Type 0 };

    ghost piece: { Value → Piece };

    fn check(c: Checker, s: Places) -> Option<Places>
        ensures { Checks c.entry.store valid piece s result };
}

impl Item for Constants {
    ghost Value = { Value };

    ghost valid = { ValidConstant };

    ghost piece = { constant_piece };

    fn check(c: Checker, s: Places) -> Option<Places> {
        c.check_constant(s)
    }
}

impl Item for Locals {
    ghost Value = { Local };

    ghost valid = { ValidLocal };

    ghost piece = { local_piece };

    fn check(c: Checker, s: Places) -> Option<Places> {
        c.check_local(s)
    }
}

impl Item for Names {
    ghost Value = { List ℕ };

    ghost valid = { Name };

    ghost piece = { string };

    fn check(c: Checker, s: Places) -> Option<Places> {
        c.check_name(s)
    }
}

impl<'a> Checker<'a> {
    // Of a store.
    fn new(store: Store<'a>) -> Self
        ensures { result.store ≡ store.entry }
    {
        Checker {
            store,
            ascii: utf8::is_ascii(store.text),
        }
    }

    // A word within limits.
    fn check_word(self, s: Places, low: u32, high: u32) -> Option<Places>
        ensures { Checks self.entry.store (Within low high) word_piece s result }
    {
        let w = *self.store.words.get(s.at)?;
        if !(low..=high).contains(&w) {
            return None;
        }
        Some(Places { at: s.at + 1, ..s })
    }

    // n words, whatever they are.
    #[tactic(auto, using(crate::proofs::Checks::words_good, crate::proofs::Checks::words_bad))]
    fn check_words(self, s: Places, n: usize) -> Option<Places>
        ensures { Checks self.entry.store (Many Word n) plain s result }
    {
        if !is_within(self.store.words.len(), s.at, n) {
            return None;
        }
        Some(Places { at: s.at + n, ..s })
    }

    // The count of a list, and the places behind it.
    fn check_count(self, s: Places) -> Option<(u32, Places)>
        ensures { Counts self.entry.store s result }
    {
        let n = *self.store.words.get(s.at)?;
        if LIMIT < n {
            return None;
        }
        Some((n, Places { at: s.at + 1, ..s }))
    }

    // Three words: a kind, and two with their greatest values.
    #[tactic(auto, using(crate::proofs::Checks::three_in_room, crate::proofs::Checks::three_short))]
    fn check_three(self, s: Places, kind: u32, a: u32, b: u32) -> Option<Places>
        ensures { Checks self.entry.store (Three kind a b) three s result }
    {
        let Store { words, .. } = self.store;
        if !is_within(words.len(), s.at, 3) {
            return None;
        }
        if words[s.at] != kind || a < words[s.at + 1] || b < words[s.at + 2] {
            return None;
        }
        Some(Places { at: s.at + 3, ..s })
    }

    // The place and the length of a string, which stands next in the text.
    fn check_string(self, s: Places) -> Option<Places>
        ensures { Checks self.entry.store Bytes string s result }
    {
        let [place, n, ..] = self.store.words.get(s.at..)? else {
            return None;
        };
        let n = *n as usize;
        if *place as usize != s.to || !is_within(self.store.text.len(), s.to, n) {
            return None;
        }
        Some(Places {
            at: s.at + 2,
            to: s.to + n,
        })
    }

    // A string that is UTF-8, as each is where the whole text is ASCII.
    fn check_name(self, s: Places) -> Option<Places>
        ensures { Checks self.entry.store Name string s result }
    {
        let r = self.check_string(s)?;
        let name = Span {
            start: s.to,
            len: r.to - s.to,
        };
        if self.ascii || utf8::is_utf8(name.of(self.store.text)) {
            Some(r)
        } else {
            None
        }
    }

    // The source of a function: inherited, or its own.
    #[tactic(auto, using(crate::proofs::Stores::inherited_checked, crate::proofs::Stores::own_then, crate::proofs::Stores::own_stop))]
    fn check_source(self, s: Places) -> Option<Places>
        ensures { Checks self.entry.store ValidSource source_piece s result }
    {
        if word_at(self.store.words, s.at) == 0 {
            return self.check_three(s, 0, 0, 0);
        }
        self.check_name(self.check_word(s, 1, 1)?)
    }

    // A constant, by its tag: Nil or Bool, whose second word is no more than the first, Num or String. The room for its words is tested ahead of the tag, so that
    // the compiler leaves out the arms' own tests: 65,535 numbers are checked in 0.52 and not 0.79 million instructions. The tags by number: by Tag::try_from,
    // proved, dump of 60,000 numbers took 3.05 and not 2.87 million before that, over the bar of steps (docs/PERFORMANCE.md).
    #[tactic(auto, using(crate::proofs::Stores::constant_short, crate::proofs::Stores::constant_plain, crate::proofs::Stores::num_checked, crate::proofs::Stores::str_then, crate::proofs::Stores::str_stop))]
    fn check_constant(self, s: Places) -> Option<Places>
        ensures { Checks self.entry.store ValidConstant constant_piece s result }
    {
        let Store { words, .. } = self.store;
        if !is_within(words.len(), s.at, Constants::WORDS as usize) {
            return None;
        }
        let kind = words[s.at];
        match kind {
            0 | 1 => self.check_three(s, kind, kind, 0),
            3 => self.check_three(s, 3, ANY, ANY),
            _ => self.check_string(self.check_word(s, 4, 4)?),
        }
    }

    // A local: its name, start and end.
    #[tactic(auto, using(crate::proofs::Checks::check_then, crate::proofs::Checks::check_stop, crate::proofs::Stores::local_checked))]
    fn check_local(self, s: Places) -> Option<Places>
        ensures { Checks self.entry.store ValidLocal local_piece s result }
    {
        self.check_words(self.check_name(s)?, 2)
    }

    // A list of words.
    #[tactic(auto, using(crate::proofs::Checks::ints_checked, crate::proofs::Checks::ints_short))]
    fn check_ints(self, s: Places) -> Option<Places>
        ensures { Checks self.entry.store (ValidList Word) ints s result }
    {
        let (n, p) = self.check_count(s)?;
        self.check_words(p, n as usize)
    }

    // A list of other items.
    #[tactic(auto, using(crate::proofs::Checks::items_turn, crate::proofs::Checks::items_end, crate::proofs::Checks::count_wrong, crate::proofs::Checks::item_wrong))]
    fn check_list<T: Item>(self, s: Places) -> Option<Places>
        ensures { Checks self.entry.store (ValidList T.valid) (list T.piece) s result }
    {
        let (n, mut p) = self.check_count(s)?;
        for _ in 0..n {
            p = T::check(self, p)?;
        }
        Some(p)
    }

    // The lists that strip leaves out: the lines, the locals and the upvalues' names.
    #[tactic(auto, using(crate::proofs::Checks::check_then, crate::proofs::Checks::check_stop, crate::proofs::Stores::debug_checked))]
    fn check_debug(self, s: Places) -> Option<Places>
        ensures { Checks self.entry.store ValidDebug debug_piece s result }
    {
        let lines = self.check_ints(s)?;
        let locals = self.check_list::<Locals>(lines)?;
        self.check_list::<Names>(locals)
    }

    // A function up to those in it: its source, three words of numbers, its code and its constants.
    #[tactic(auto, using(crate::proofs::Checks::check_then, crate::proofs::Checks::check_stop))]
    fn check_to_functions(self, s: Places) -> Option<Places>
        ensures { Checks self.entry.store (Both ValidSource (Both (Many Word 3) (Both (ValidList Word) (ValidList ValidConstant)))) (beside source_piece (beside plain (beside ints (list constant_piece)))) s result }
    {
        let source = self.check_source(s)?;
        let numbers = self.check_words(source, 3)?;
        let code = self.check_ints(numbers)?;
        self.check_list::<Constants>(code)
    }

    // The functions in a function, each with so many nested at most. No Item, as the check gives no proof of one whose check leads back to it.
    #[cycle(check_function_check_functions)]
    #[tactic(auto, using(crate::proofs::Stores::children_checked, crate::proofs::Checks::count_wrong, crate::proofs::Checks::items_turn))]
    fn check_functions(self, s: Places, allowance: u32) -> Option<Places>
        ensures { Checks self.entry.store (ValidChildren allowance) children_piece s result }
    {
        let (n, mut p) = self.check_count(s)?;
        for _ in 0..n {
            p = self.check_function(p, allowance)?;
        }
        Some(p)
    }

    // A function.
    #[cycle(check_function_check_functions)]
    fn check_function(self, s: Places, allowance: u32) -> Option<Places>
        ensures { Checks self.entry.store (λ f. Valid f allowance) function_piece s result }
    {
        if allowance == 0 {
            return None;
        }
        let start = self.check_to_functions(s)?;
        let functions = self.check_functions(start, allowance - 1)?;
        self.check_debug(functions)
    }
}

// Whether n items from a place on are within so many. One comparison where n is not 0: it is made for each item of a list.
pub fn is_within(len: usize, at: usize, n: usize) -> bool
    ensures { Room result len at n }
{
    n == 0 || at < len.saturating_sub(n - 1)
}

impl<'a> Store<'a> {
    // Whether it holds a tree: refused by 10.
    #[tactic(auto, using(crate::proofs::Stores::held_no, crate::proofs::Stores::passed_10))]
    pub fn check_held(self) -> Result<(), Refusal>
        ensures { RefusedBy (store_refusal self.entry.words.now self.entry.text.now) result }
    {
        if MOST < self.words.len().max(self.text.len()) {
            return Err(Refusal::BadStore);
        }
        let start = Places { at: 0, to: 0 };
        let end = Places {
            at: self.words.len(),
            to: self.text.len(),
        };
        if Checker::new(self).check_function(start, DEPTH) == Some(end) {
            Ok(())
        } else {
            Err(Refusal::BadStore)
        }
    }
}
