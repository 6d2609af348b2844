// LoadState, the reader of undump.rs: the chunk and the place in it. Its calls are thin, a rule of the project: each takes
// the struct apart and reads by the cursor.
#![tactic(auto)]

pub mod cursor;

ghost use Rattle.format.specs.Read.{load_byte, load_number, load_int};
ghost use Rattle.load_state.specs.ReadAt.{ReadFrom, BlockFrom, HalvesFrom};

use cursor::{Got, block_at, byte_at, int_at, number_at, size_at};
use format::Refusal;

// The chunk, and the place of the next byte.
#[derive(Clone, Copy)]
pub struct LoadState<'a> {
    pub chunk: &'a [u8],
    pub pos: usize,
}

impl<'a> LoadState<'a> {
    pub fn load_block(self, n: usize) -> Result<Got<&'a [u8]>, Refusal>
        ensures { BlockFrom n self.entry result }
    {
        block_at(self.chunk, self.pos, n)
    }

    pub fn load_byte(self) -> Result<Got<u8>, Refusal>
        ensures { ReadFrom load_byte self.entry result }
    {
        byte_at(self.chunk, self.pos)
    }

    pub fn load_int(self) -> Result<Got<u32>, Refusal>
        ensures { ReadFrom load_int self.entry result }
    {
        int_at(self.chunk, self.pos)
    }

    pub fn load_size(self) -> Result<Got<u64>, Refusal>
        ensures { ReadFrom (load_number 8) self.entry result }
    {
        size_at(self.chunk, self.pos)
    }

    pub fn load_number(self) -> Result<Got<(u32, u32)>, Refusal>
        ensures { HalvesFrom self.entry result }
    {
        number_at(self.chunk, self.pos)
    }
}
