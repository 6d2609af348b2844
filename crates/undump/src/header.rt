// The header of a chunk.
ghost use Rattle.format.specs.Read.{load_exactly, load_format, load_header};
ghost use Rattle.format.specs.Refusal.{number};
ghost use Rattle.load_state.specs.ReadAt.{ReadsByFrom, ReadFrom, ReadAt};
ghost use Rattle.undump.specs.Undump.{beginning};

use format::Refusal;
use load_state::LoadState;
use load_state::cursor::Got;

// The eight bytes behind the signature, where sizes take four bytes or eight: two constants, each whole as it is read.
const SIZES_OF_4: &[u8] = b"\x51\x00\x01\x04\x04\x04\x08\x00";

const SIZES_OF_8: &[u8] = b"\x51\x00\x01\x04\x08\x04\x08\x00";

// These bytes, else the refusal given. Answers the place behind them.
#[tactic(auto, using(load::proofs::Steps::reads_refused_with, crate::proofs::Calls::exactly_others, crate::proofs::Calls::exactly_these))]
fn load_exactly(s: LoadState, bytes: &[u8], other: Refusal) -> Result<usize, Refusal>
    ensures { ReadsByFrom (load_exactly bytes.now (number other)) (λ v n. Unit {0}) (λ n. n) s.entry result }
{
    let block = s.load_block(bytes.len())?;
    if block.value != bytes {
        return Err(other);
    }
    Ok(block.next)
}

// The eight bytes behind the signature, in one of their two forms, else refusal 4: whether a size takes 4 bytes. By tests: a match on byte strings did not prove.
#[tactic(auto, using(load::proofs::Steps::reads_refused_with, crate::proofs::Calls::format_of_4, crate::proofs::Calls::format_of_8, crate::proofs::Calls::format_other))]
fn load_format(s: LoadState) -> Result<Got<bool>, Refusal>
    ensures { ReadFrom load_format s.entry result }
{
    let block = s.load_block(8)?;
    if block.value == SIZES_OF_4 {
        Ok(block.with(true))
    } else if block.value == SIZES_OF_8 {
        Ok(block.with(false))
    } else {
        Err(Refusal::BadFormat)
    }
}

// The signature, then the version, the format and the sizes: 12 bytes.
#[tactic(auto, using(load::proofs::Steps::reads_then, load::proofs::Steps::reads_refused_with), unfolding(format::specs::Read::load_header))]
pub fn load_header(chunk: &[u8]) -> Result<Got<bool>, Refusal>
    ensures { ReadAt chunk.now load_header beginning result }
{
    let s = LoadState { chunk, pos: 0 };
    let pos = load_exactly(s, b"\x1bLua", Refusal::BadSignature)?;
    load_format(LoadState { pos, ..s })
}
