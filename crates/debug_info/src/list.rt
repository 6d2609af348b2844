// Names in the lists of a function: locals, constants, upvalues. By the words and the place of a list, not by Lists: kname looks at the constants alone, and
// finds them without a walk through the functions in the function.
ghost use Rattle.std.specs.Prelude.{List, ◌≡◌, ℕ};
ghost use Rattle.format.specs.Store.{list, string, constant_piece, local_piece};
ghost use Rattle.format.specs.Tree.{Constant as Value, Local};
ghost use Rattle.proto.specs.Walk.{item, StandsAt};
ghost use Rattle.debug_info.specs.Names.{active_local, kname, upvalue_name};
ghost use Rattle.debug_info.specs.Known.{name_of, object_of};
ghost use Rattle.debug_info.specs.Look.{look};

use crate::name::{Kind, Known, Name, constant_name};
use format::Locals;
use instructions::{index_k, is_k};
use proto::constant::constant_of;
use proto::debug::{local_at, upvalue_of};
use proto::walk::{item_of, word_at};
use std::ops::ControlFlow;

// What a local of which this is known, active from start on and before end, tells of the search for number remaining, from it on, of those active at pc.
// Breaks with what the search gives, nothing where it starts beyond pc, or goes on with how many are still to be counted.
pub fn look(
    known: Known,
    start: u32,
    end: u32,
    remaining: usize,
    pc: u32,
) -> ControlFlow<Option<Known>, usize>
    ensures { result ≡ look known start end remaining pc }
{
    if pc < start {
        return ControlFlow::Break(None);
    }
    if end <= pc {
        return ControlFlow::Continue(remaining);
    }
    if remaining == 1 {
        return ControlFlow::Break(Some(known));
    }
    ControlFlow::Continue(remaining.saturating_sub(1))
}

// The local that is number n of those active at pc, in the list at a place; nothing behind the first that starts beyond pc.
// The loop of local_records' find is over records, this one over words: what they share is look. n and pc are told apart: as one struct with look as its method,
// tried, each caller makes it of the two, and the loop's invariant has to say that pc stays.
pub fn active_local(words: &[u32], locals: usize, n: usize, pc: u32) -> Option<Known>
    ensures { (text : List ℕ) (l : List Local) → StandsAt words.now text locals (list local_piece l) → object_of text result ≡ active_local l n pc }
{
    let count = word_at(words, locals);
    let mut remaining = n;
    for i in 0..count {
        let v = local_at(words, item_of::<Locals>(words, locals, i));
        let known = Known {
            kind: Kind::Local,
            name: Name::Text(v.name),
        };
        match look(known, v.start, v.end, remaining, pc) {
            ControlFlow::Break(found) => return found,
            ControlFlow::Continue(left) => remaining = left,
        }
    }
    None
}

// The name of an RK operand: its constant's, or ?.
#[tactic(auto, unfolding(crate::specs::Names::kname))]
pub fn operand_name(words: &[u32], constants: usize, c: u32) -> Name
    ensures { (text : List ℕ) (l : List Value) → StandsAt words.now text constants (list constant_piece l) → name_of text result ≡ kname l c }
{
    if !is_k(c) {
        return Name::Unknown;
    }
    constant_name(constant_of(words, constants, index_k(c)))
}

// The name of upvalue i, of the list at a place; ? where there is none.
pub fn upvalue_name(words: &[u32], upvalues: usize, i: u32) -> Name
    ensures { (text : List ℕ) (l : List (List ℕ)) → StandsAt words.now text upvalues (list string l) → name_of text result ≡ upvalue_name (item l i) }
{
    // By map_or the proof didn't close: what the closure answers was left open.
    match upvalue_of(words, upvalues, i) {
        Some(name) => Name::Text(name),
        None => Name::Unknown,
    }
}
