// The last instruction that wrote a register (ldebug.c, symbexec; in the Rust, debug_info.rs).
#![tactic(auto)]

pub mod operands;
pub mod step;

ghost use Rattle.std.specs.Prelude.{List, ◌≡◌, ℕ, ◌-◌, length};
ghost use Rattle.format.specs.Store.{children_piece};
ghost use Rattle.format.specs.Tree.{Parts, Function, Functions};
ghost use Rattle.proto.specs.Walk.{children, StandsAt};
ghost use Rattle.format.specs.Valid.{depth, ValidAll};
ghost use Rattle.proto.specs.Lists.{ListsOver};
ghost use Rattle.symbexec.specs.SymbExec.{last_write, symbexec};

use format::DEPTH;
use instructions::Instruction;
use operands::operands;
use proto::child::Children;
use proto::lists::Lists;
use proto::walk::{ints_at, word_at};
use step::Sought;

// The pc of the last instruction of the code before lastpc that wrote a register, the last pc of all where none did.
fn last_write(code: &[u32], functions: Children, sought: Sought) -> usize
    ensures { (text : List ℕ) (fs : Functions) → StandsAt functions.entry.words.now text functions.entry.list (children_piece fs) → ValidAll fs functions.entry.allowance → result ≡ last_write code.now (children fs) sought.lastpc sought.reg sought.lastpc 0 (length code.now - 1) }
{
    let end = sought.lastpc as usize;
    let mut last = code.len().saturating_sub(1);
    let mut by_index = functions.by_index();
    let mut pc: usize = 0;
    // No range counts pc: it goes past the words that are no instructions, and where a jump leads.
    while pc < end {
        let i = Instruction(word_at(code, pc));
        last = sought.latest(i, pc, last);
        let skipped = operands(&mut by_index, i);
        pc = sought.next_pc(i, skipped, pc as u32);
    }
    last
}

// That instruction, in the function whose lists these are.
pub fn symbexec_at(s: Lists, lastpc: u32, reg: u32) -> u32
    ensures { (text : List ℕ) (p : Parts) (fs : Functions) → ListsOver text s.entry p fs → ValidAll fs depth → result ≡ symbexec (Function.function p fs) lastpc reg }
{
    let code = ints_at(s.store.words, s.code);
    word_at(
        code,
        last_write(code, s.children(0, DEPTH), Sought { lastpc, reg }),
    )
}
