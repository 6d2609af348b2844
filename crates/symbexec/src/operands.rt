// The words behind an instruction that are no instructions.
ghost use Rattle.std.specs.Prelude.{◌≡◌};
ghost use Rattle.proto.specs.Walk.{item};
ghost use Rattle.symbexec.specs.SymbExec.{upvalues_of, operands};
ghost use Rattle.symbexec.specs.Operands.{Behind};

use instructions::{Instruction, OP_CLOSURE, OP_SETLIST};
use proto::child::ByIndex;
use proto::head::head_at;

// Those of CLOSURE for function i: one for each of its upvalues, none where there is no such function.
fn closure_operands(functions: &mut ByIndex, i: u32) -> u32
    ensures of { functions.new.of ≡ functions.old.of }
    ensures many { Behind functions.old.of (λ fs. upvalues_of (item fs i)) result }
{
    let words = functions.of.words;
    match functions.get(i) {
        Some(f) => head_at(words, f.at).num_upvalues,
        None => 0,
    }
}

// Those of an instruction, in a function that has these functions.
#[tactic(auto, using(crate::proofs::Upvalues::behind_kept, crate::proofs::Upvalues::behind_is), unfolding(crate::specs::SymbExec::operands))]
pub fn operands(functions: &mut ByIndex, i: Instruction) -> u32
    ensures of { functions.new.of ≡ functions.old.of }
    ensures many { Behind functions.old.of (λ fs. operands fs i.0) result }
{
    let op = i.opcode();
    if op == OP_CLOSURE {
        return closure_operands(functions, i.bx());
    }
    // next_is_c's test, with the opcode at hand, so that getobjname is no slower than before: by the method it takes 15 % more machine instructions,
    // 3.44 and not 3.00 million over 55,747 instructions.
    u32::from(op == OP_SETLIST && i.c() == 0)
}
