// Functions, one inside the other (listing.rs: list_function_recursive).
ghost use Rattle.std.specs.Prelude.{◌≡◌, ◌+◌, ◌≤◌};
ghost use Rattle.lent.specs.Memory.{far};
ghost use Rattle.lent.specs.Writer.{Writes};
ghost use Rattle.format.specs.Tree.{Parts, Function, Functions};
ghost use Rattle.format.specs.Store.{function_piece};
ghost use Rattle.format.specs.Valid.{Valid, ValidParts, ValidAll};
ghost use Rattle.proto.specs.Walk.{total_all, StandsAt};
ghost use Rattle.proto.specs.Lists.{ListsAt};

use crate::code::format_code;
use format::{Constants, DEPTH, Locals, Names};
use lent::Writer;
use listing_headers::header::Header;
use listing_headers::list::put_list;
use proto::head::head_at;
use proto::lists::{Lists, Way};
use proto::walk::{Next, after_debug, first_in, functions_at, word_at};

// How many places of lines are kept on the way: one for each number of functions nested.
const KEPT: usize = DEPTH as usize;

// A walk through a store to list, with the lists of a full listing or without. Its methods say that both stay, for the reason that proto's Way gives.
#[derive(Drop)]
pub struct Lister<'a> {
    pub way: Way<'a, KEPT>,
    pub full: bool,
}

impl<'a> Lister<'a> {
    ghost use Rattle.listing.specs.Listing.{format_lists, format_function};
    ghost use Rattle.listing.specs.Lister.{ListsFunction, progress};

    // What a full listing adds.
    fn put_lists(&self, w: &mut Writer, lists: Lists, number: usize)
        ensures { (p : Parts) (fs : Functions) → ListsAt lists.entry p fs → Writes (format_lists self.now.full p number) w.old w.new }
    {
        if self.full {
            put_list::<Constants>(w, lists.store, lists.constants, number);
            put_list::<Locals>(w, lists.store, lists.locals, number);
            put_list::<Names>(w, lists.store, lists.upvalues, number);
        }
    }

    // A function without those in it.
    fn put_function(&mut self, w: &mut Writer, source: &[u8], s: Next, allowance: u32)
        ensures stays { (self.new.way.store ≡ self.old.way.store) × (self.new.full ≡ self.old.full) }
        ensures lists { (p : Parts) (fs : Functions) → ValidParts p → ValidAll fs allowance → StandsAt self.old.way.store.words.now self.old.way.store.text.now s.at (function_piece (Function.function p fs)) → s.number + 1 + total_all fs ≤ far → Writes (format_function p fs self.old.full source.now s.number) w.old w.new }
    {
        let head = head_at(self.way.store.words, s.at);
        let lists = self.way.lists(s.at, allowance);
        Header { head, lists }.put(w, source, s.number);
        format_code(w, lists, s.number, allowance);
        self.put_lists(w, lists, s.number);
    }

    // The function at s, and those in it, with so many nested at most. Answers what is behind it. outer is the source that an inherited one
    // stands for.
    #[tactic(auto, using(proto::proofs::Walks::none_deep))]
    pub fn list(&mut self, w: &mut Writer, outer: &'a [u8], s: Next, allowance: u32) -> Next
        ensures stays { (self.new.way.store ≡ self.old.way.store) × (self.new.full ≡ self.old.full) }
        ensures lists { (f : Function) → Valid f allowance → ListsFunction self.old.way.store.words.now self.old.way.store.text.now self.old.full outer.now f (progress s w.old) (progress result w.new) }
    {
        if allowance == 0 {
            return s;
        }
        let store = self.way.store;
        let words = store.words;
        let source = store.source_of(outer, s.at);
        self.put_function(w, source, s, allowance - 1);
        let list = functions_at(words, s.at);
        let n = word_at(words, list);
        let mut r = first_in(words, list, s.number);
        for _i in 0..n {
            w.put_byte(b'\n');
            r = self.list(w, source, r, allowance - 1);
        }
        Next {
            at: after_debug(words, r.at),
            ..r
        }
    }
}
