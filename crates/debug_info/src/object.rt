// The object that a register holds (ldebug.c, getobjname).
ghost use Rattle.std.specs.Prelude.{List, ◌≡◌, ℕ, ◌<◌};
ghost use Rattle.format.specs.Tree.{Parts, Function, Functions};
ghost use Rattle.format.specs.Valid.{depth, ValidAll};
ghost use Rattle.proto.specs.Lists.{ListsOver};
ghost use Rattle.debug_info.specs.Names.{wrote, moves_up, searched};
ghost use Rattle.debug_info.specs.Known.{object_of};
ghost use Rattle.debug_info.specs.Searched.{unsearched};

use crate::list::{active_local, operand_name, upvalue_name};
use crate::name::{Kind, Known, global_of};
use instructions::{Instruction, OP_GETGLOBAL, OP_GETTABLE, OP_GETUPVAL, OP_MOVE, OP_SELF};
use proto::constant::constant_of;
use proto::lists::Lists;
use symbexec::symbexec_at;

// What an instruction other than MOVE wrote.
#[tactic(auto, unfolding(crate::specs::Names::wrote))]
fn wrote(s: Lists, i: Instruction) -> Option<Known>
    ensures { (text : List ℕ) (p : Parts) (fs : Functions) → ListsOver text s.entry p fs → object_of text result ≡ wrote p i.0 }
{
    let words = s.store.words;
    let (kind, name) = match i.opcode() {
        OP_GETGLOBAL => return global_of(constant_of(words, s.constants, i.bx())),
        OP_GETTABLE => (Kind::Field, operand_name(words, s.constants, i.c())),
        OP_GETUPVAL => (Kind::Upvalue, upvalue_name(words, s.upvalues, i.b())),
        OP_SELF => (Kind::Method, operand_name(words, s.constants, i.c())),
        _ => return None,
    };
    Some(Known { kind, name })
}

// Whether an instruction is MOVE with B below A.
#[tactic(auto, unfolding(crate::specs::Names::moves_up))]
fn moves_up(i: Instruction) -> bool
    ensures { result ≡ moves_up i.0 }
{
    i.opcode() == OP_MOVE && i.b() < i.a()
}

// The object in a register at pc, of the function whose lists these are. Calls itself on the register that MOVE took it from, as the scope
// has it; nothing is known where that was searched before.
pub fn getobjname(s: Lists, pc: u32, reg: u8, mut before: [bool; 256]) -> Option<Known>
    ensures { (text : List ℕ) (p : Parts) (fs : Functions) → ListsOver text s.entry p fs → ValidAll fs depth → object_of text result ≡ searched (Function.function p fs) pc (unsearched before) reg before }
{
    let n = usize::from(reg);
    if before[n] {
        return None;
    }
    let v = active_local(s.store.words, s.locals, n + 1, pc);
    if v.is_some() {
        return v;
    }
    let i = Instruction(symbexec_at(s, pc, u32::from(reg)));
    if moves_up(i) {
        before[n] = true;
        return getobjname(s, pc, i.b() as u8, before);
    }
    wrote(s, i)
}
