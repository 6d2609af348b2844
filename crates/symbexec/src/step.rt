// What an instruction writes, and which is next.
ghost use Rattle.std.specs.Prelude.{◌≡◌, cond, ◌<◌};
ghost use Rattle.instructions.specs.Fields.{GETARG_A, GETARG_B, GETARG_Bx};
ghost use Rattle.instructions.specs.OpCodes.{opcode};
ghost use Rattle.symbexec.specs.SymbExec.{also_writes, sets_a, writes, followed, next_pc};

use instructions::{
    Instruction, MAXARG_SBX, NO_REG, OP_CALL, OP_LOADNIL, OP_SELF, OP_TAILCALL, OP_TFORLOOP,
    is_jump, op_modes,
};

// What is added to sBx in an instruction.
const SBX: usize = MAXARG_SBX as usize;

// What is looked for: the last write of a register before a pc.
#[derive(Clone, Copy)]
pub struct Sought {
    pub lastpc: u32,
    pub reg: u32,
}

impl Sought {
    // Whether the register is one that an instruction writes beside A.
    #[tactic(auto, unfolding(crate::specs::SymbExec::also_writes))]
    fn also_written_by(self, i: Instruction) -> bool
        ensures { result ≡ also_writes (opcode i.0) (GETARG_A i.0) (GETARG_B i.0) self.reg }
    {
        let a = i.a();
        match i.opcode() {
            OP_LOADNIL => (a..=i.b()).contains(&self.reg),
            OP_SELF => self.reg == a + 1,
            OP_CALL | OP_TAILCALL => a <= self.reg,
            OP_TFORLOOP => a + 2 <= self.reg,
            _ => false,
        }
    }

    // Whether the register is A of an instruction, and written.
    #[tactic(auto, unfolding(crate::specs::SymbExec::sets_a))]
    fn set_by(self, i: Instruction) -> bool
        ensures { result ≡ sets_a (opcode i.0) (GETARG_A i.0) self.reg }
    {
        i.a() == self.reg && op_modes(i.opcode()).sets_register_a
    }

    // Whether an instruction writes the register.
    #[tactic(auto, unfolding(crate::specs::SymbExec::writes))]
    fn written_by(self, i: Instruction) -> bool
        ensures { result ≡ writes i.0 self.reg }
    {
        self.set_by(i) || self.also_written_by(i)
    }

    // The pc of the last write: this one, or the last before it.
    pub fn latest(self, i: Instruction, pc: usize, last: usize) -> usize
        ensures { result ≡ cond (writes i.0 self.reg) pc last }
    {
        if self.written_by(i) { pc } else { last }
    }

    // Whether an instruction is a jump that is followed: not for NO_REG, only forward, to lastpc at most.
    #[tactic(auto, unfolding(crate::specs::SymbExec::followed))]
    fn followed(self, i: Instruction, pc: u32) -> bool
        ensures { result ≡ followed (opcode i.0) (GETARG_Bx i.0) self.lastpc self.reg pc }
    {
        let biased = pc as usize + 1 + i.bx() as usize;
        is_jump(i.opcode())
            && self.reg != NO_REG
            && pc as usize + SBX < biased
            && biased <= self.lastpc as usize + SBX
    }

    // The next pc, where so many words behind the instruction are none.
    #[tactic(auto, using(crate::proofs::Steps::goes_forward, crate::proofs::Steps::next_jump, crate::proofs::Steps::next_on))]
    pub fn next_pc(self, i: Instruction, skipped: u32, pc: u32) -> usize
        ensures { (result ≡ next_pc (opcode i.0) (GETARG_Bx i.0) skipped self.lastpc self.reg pc) × (pc < result) }
    {
        if self.followed(i, pc) {
            return pc as usize + 1 + i.bx() as usize - SBX;
        }
        pc as usize + 1 + skipped as usize
    }
}
