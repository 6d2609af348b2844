// The code of a function (listing.rs: format_code; print.c: PrintCode).
ghost use Rattle.std.specs.Prelude.{◌+◌, ◌≤◌, ◌<◌, min, cond, ◌≡◌};
ghost use Rattle.lent.specs.Memory.{far};
ghost use Rattle.lent.specs.Writer.{Writes};
ghost use Rattle.instructions.specs.OpCodes.{next_is_c};
ghost use Rattle.format.specs.Tree.{Parts, Functions};
ghost use Rattle.format.specs.Valid.{ValidAll};
ghost use Rattle.proto.specs.Walk.{total_all};
ghost use Rattle.proto.specs.Lists.{ListsAt};
ghost use Rattle.listing.specs.Listing.{format_code};
ghost use Rattle.listing.specs.Closures.{ClosureChild};

use instructions::{Instruction, OP_CLOSURE};
use lent::Writer;
use listing_lines::format_instruction;
use proto::child::ByIndex;
use proto::lists::Lists;
use proto::walk::{ints_at, word_at};

// The number of the function that instruction i makes a closure of: none where it is no CLOSURE, or there is no such function.
#[tactic(auto, using(crate::proofs::Closures::closure_none, crate::proofs::Closures::closure_past, crate::proofs::Closures::closure_found))]
fn closure_child(functions: &mut ByIndex, i: Instruction) -> Option<usize>
    ensures of { functions.new.of ≡ functions.old.of }
    ensures number { ClosureChild functions.old.of i.0 result }
{
    if i.opcode() != OP_CLOSURE {
        return None;
    }
    Some(functions.get(i.bx())?.number)
}

// The pc behind the instruction i at pc, of n words, and behind the word that is its C.
fn pc_behind(n: u32, pc: u32, i: Instruction) -> u32
    requires { pc < n }
    ensures { (result ≡ cond (next_is_c i.0) (min (pc + 2) n) (pc + 1)) × (pc < result) }
{
    if i.next_is_c() {
        pc.saturating_add(2).min(n)
    } else {
        pc + 1
    }
}

// The code, a line for each instruction. The functions in it are looked up by index, so that those named in order cost one walk.
pub fn format_code(w: &mut Writer, lists: Lists, number: usize, allowance: u32)
    ensures { (p : Parts) (fs : Functions) → ListsAt lists.entry p fs → ValidAll fs allowance → number + 1 + total_all fs ≤ far → Writes (format_code p fs number) w.old w.new }
{
    let n = word_at(lists.store.words, lists.code);
    let code = ints_at(lists.store.words, lists.code);
    let mut functions = lists.children(number, allowance).by_index();
    let mut pc = 0;
    // A turn passes one or two words, so pc is no counter. It stops at n, and not where code.get(pc) is none: no contract says that code is shorter
    // than 2^32, so that pc < 2^32 - 1 stayed open.
    while pc < n {
        let i = Instruction(word_at(code, pc as usize));
        let child = closure_child(&mut functions, i);
        format_instruction(w, lists, child, pc, i);
        pc = pc_behind(n, pc, i);
    }
}
