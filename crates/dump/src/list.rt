// The fields and lists of a function, written to a chunk from where they stand in the store.
ghost use Rattle.std.specs.Prelude.{ℕ, List, [], ◌∷◌, ◌++◌, Bool};
ghost use Rattle.lent.specs.Memory.{Puts};
ghost use Rattle.format.specs.Tree.{Constant as Value};
ghost use Rattle.format.specs.Tree.{Local, Debug, Parts, kept};
ghost use Rattle.format.specs.Store.{◌⊕◌, string, list, ints, constant_piece, local_piece, debug_piece, packed};
ghost use Rattle.format.specs.Store.{word as word_piece};
ghost use Rattle.format.specs.Valid.{ValidParts};
ghost use Rattle.format.specs.Write.{dump_int, dump_text, dump_list, dump_code, dump_constant, dump_local, dump_debug};
ghost use Rattle.format.specs.Constants.{value_of};
ghost use Rattle.dump.specs.Step.{Dumps, progress, seen};

pub use crate::block::Options;
use crate::block::{dump_array, dump_int, dump_ints, dump_tagged};
use crate::item::CountedItem;
use format::{Constant, Constants, Locals, Names, StoredItem, Tag, joined};
use proto::constant::constant_at;
use proto::store::Store;
use proto::walk::{after_debug, ints_at, skip, word_at};

// The place reached in the words, and the bytes written so far.
#[derive(Clone, Copy)]
pub struct Reached {
    pub at: usize,
    pub len: usize,
}

// What is written, and how. Each step goes on from what is reached, past what it writes. Over the space and what is reached by value: tried with a
// Writer, whose place goes through memory at each item, dump of grouped1 took 7.08 and not 4.90 million instructions, of 65,535 numbers 4.79 and not
// 3.02. By value it takes 0.59 of the Rust's time for grouped1, 0.66 stripped; half as much again would miss the bar of 0.8.
#[derive(Clone, Copy)]
pub struct Dumper<'a> {
    pub store: Store<'a>,
    pub options: Options,
}

impl Dumper<'_> {
    // A word, as an integer.
    #[tactic(auto, using(crate::proofs::Steps::word_dumped))]
    pub fn dump_word<const STORED: bool>(self, out: &mut [u8], s: Reached) -> Reached
        ensures { (v : ℕ) → Dumps self.entry (word_piece v) (dump_int v) (progress s (seen STORED out.old)) (progress result (seen STORED out.new)) }
    {
        let Store { words, .. } = self.store;
        Reached {
            at: skip(words, s.at, 1),
            len: dump_int::<STORED>(out, s.len, word_at(words, s.at)),
        }
    }

    // Two words, as integers: the room is tested once.
    #[tactic(auto, using(crate::proofs::Steps::two_dumped))]
    pub fn dump_two<const STORED: bool>(self, out: &mut [u8], s: Reached) -> Reached
        ensures { (v w : ℕ) → Dumps self.entry (word_piece v ⊕ word_piece w) (dump_int v ++ dump_int w) (progress s (seen STORED out.old)) (progress result (seen STORED out.new)) }
    {
        let Store { words, .. } = self.store;
        let first = word_at(words, s.at);
        let second = word_at(words, skip(words, s.at, 1));
        Reached {
            at: skip(words, s.at, 2),
            len: dump_array::<STORED, 8>(out, s.len, joined(second, first).to_le_bytes()),
        }
    }

    // The four bytes packed in a word. dump_word but for the order of the bytes: what stands there is another piece, of which another fact is promised.
    #[tactic(auto, using(crate::proofs::Steps::packed_dumped))]
    pub fn dump_packed<const STORED: bool>(self, out: &mut [u8], s: Reached) -> Reached
        ensures { (p : Parts) → ValidParts p → Dumps self.entry (word_piece (packed p)) (p.num_upvalues ∷ p.num_params ∷ p.is_vararg ∷ p.max_stack_size ∷ []) (progress s (seen STORED out.old)) (progress result (seen STORED out.new)) }
    {
        let Store { words, .. } = self.store;
        Reached {
            at: skip(words, s.at, 1),
            len: dump_array::<STORED, 4>(out, s.len, word_at(words, s.at).to_be_bytes()),
        }
    }

    // The code, or the lines.
    #[tactic(auto, using(crate::proofs::Steps::code_dumped))]
    pub fn dump_code<const STORED: bool>(self, out: &mut [u8], s: Reached) -> Reached
        ensures { (l : List ℕ) → Dumps self.entry (ints l) (dump_code l) (progress s (seen STORED out.old)) (progress result (seen STORED out.new)) }
    {
        let Store { words, .. } = self.store;
        let n = word_at(words, s.at);
        let start = dump_int::<STORED>(out, s.len, n);
        Reached {
            at: skip(words, s.at, 1 + n as usize),
            len: dump_ints::<STORED>(out, start, ints_at(words, s.at)),
        }
    }

    // A name: an upvalue's, or a local's.
    #[tactic(auto, using(crate::proofs::Steps::name_dumped))]
    pub fn dump_name<const STORED: bool>(self, out: &mut [u8], s: Reached) -> Reached
        ensures { (n : List ℕ) → Dumps self.entry (string n) (dump_text self.entry.options.size_4 n) (progress s (seen STORED out.old)) (progress result (seen STORED out.new)) }
    {
        let name = self.store.string_at(s.at);
        Reached {
            at: skip(self.store.words, s.at, Names::WORDS as usize),
            len: self.options.dump_string::<STORED>(out, s.len, name),
        }
    }

    // A local: its name, start and end.
    pub fn dump_local<const STORED: bool>(self, out: &mut [u8], s: Reached) -> Reached
        ensures { (v : Local) → Dumps self.entry (local_piece v) (dump_local self.entry.options.size_4 v) (progress s (seen STORED out.old)) (progress result (seen STORED out.new)) }
    {
        let start = self.dump_name::<STORED>(out, s);
        self.dump_two::<STORED>(out, start)
    }

    // A constant.
    #[tactic(auto, using(crate::proofs::Steps::constant_dumped))]
    pub fn dump_constant<const STORED: bool>(self, out: &mut [u8], s: Reached) -> Reached
        ensures { (k : Value) → Dumps self.entry (constant_piece k) (dump_constant self.entry.options.size_4 k) (progress s (seen STORED out.old)) (progress result (seen STORED out.new)) }
    {
        let Store { words, .. } = self.store;
        let k = constant_at(words, s.at);
        Reached {
            at: skip(words, s.at, Constants::WORDS as usize),
            len: self.put_constant::<STORED>(out, s.len, k),
        }
    }

    // The bytes of a constant: its tag, then Bool's byte, Num's halves, or String. Answers the place behind them.
    #[tactic(auto, using(crate::proofs::Blocks::num_tagged, crate::proofs::Blocks::str_put))]
    fn put_constant<const STORED: bool>(self, out: &mut [u8], at: usize, k: Constant) -> usize
        ensures { Puts (dump_constant self.entry.options.size_4 (value_of self.entry.store.text.now k)) at (seen STORED out.old) result (seen STORED out.new) }
    {
        match k {
            Constant::Nil => dump_array::<STORED, 1>(out, at, [Tag::Nil as u8]),
            Constant::Bool(b) => {
                dump_tagged::<STORED, 1>(out, at, Tag::Bool as u8, [u8::from(b)])
            }
            Constant::Num(high, low) => {
                dump_tagged::<STORED, 8>(out, at, Tag::Num as u8, joined(high, low).to_le_bytes())
            }
            Constant::String(s) => {
                let start = dump_array::<STORED, 1>(out, at, [Tag::String as u8]);
                self.options
                    .dump_string::<STORED>(out, start, s.of(self.store.text))
            }
        }
    }

    // An item.
    fn dump_item<const STORED: bool, T: CountedItem>(self, out: &mut [u8], s: Reached) -> Reached
        ensures { (v : T.Value) → Dumps self.entry (T.piece v) (T.bytes self.entry.options.size_4 v) (progress s (seen STORED out.old)) (progress result (seen STORED out.new)) }
    {
        if STORED {
            T::dump(self, out, s)
        } else {
            T::count(self, s)
        }
    }

    // A list of items: how many, then each.
    #[tactic(auto, using(crate::proofs::Lists::every_all, crate::proofs::Lists::list_dumped))]
    pub fn dump_list<const STORED: bool, T: CountedItem>(
        self,
        out: &mut [u8],
        s: Reached,
    ) -> Reached
        ensures { (l : List T.Value) → Dumps self.entry (list T.piece l) (dump_list (T.bytes self.entry.options.size_4) l) (progress s (seen STORED out.old)) (progress result (seen STORED out.new)) }
    {
        let n = word_at(self.store.words, s.at);
        let mut r = self.dump_word::<STORED>(out, s);
        for _ in 0..n {
            r = self.dump_item::<STORED, T>(out, r);
        }
        r
    }

    // The lines, the locals and the upvalues' names; strip leaves three counts of 0.
    #[tactic(auto, using(crate::proofs::Steps::dumps_past), unfolding(format::specs::Write::each, format::specs::Write::dump_number))]
    pub fn dump_debug<const STORED: bool>(self, out: &mut [u8], s: Reached) -> Reached
        ensures { (d : Debug) → Dumps self.entry (debug_piece d) (dump_debug self.entry.options.size_4 (kept self.entry.options.strip d)) (progress s (seen STORED out.old)) (progress result (seen STORED out.new)) }
    {
        if self.options.strip {
            return Reached {
                at: after_debug(self.store.words, s.at),
                len: dump_array::<STORED, 12>(out, s.len, [0; 12]),
            };
        }
        let locals = self.dump_code::<STORED>(out, s);
        let upvalues = self.dump_list::<STORED, Locals>(out, locals);
        self.dump_list::<STORED, Names>(out, upvalues)
    }
}
