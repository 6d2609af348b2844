// What stands at a place of the chunk: bytes, an integer, a size, a number; refused by 2 where too few bytes are left.
// Functions of a chunk and a place, as the thin calls of LoadState take the struct apart.
ghost use Rattle.std.specs.Prelude.{◌≡◌};
ghost use Rattle.format.specs.Read.{load_block, load_byte, load_number, load_int};
ghost use Rattle.load_state.specs.ReadAt.{ReadAt, BlockAt, HalvesAt};

use format::{Refusal, Span, halves};

// What was read, and the next place.
#[derive(Clone, Copy)]
pub struct Got<T> {
    pub value: T,
    pub next: usize,
}

impl<T: Copy> Got<T> {
    // Another value that was read there.
    pub fn with<U>(self, value: U) -> Got<U>
        ensures { (result.value ≡ value) × (result.next ≡ self.next) }
    {
        Got {
            value,
            next: self.next,
        }
    }
}

// The n bytes at a place.
pub fn block_at(chunk: &[u8], at: usize, n: usize) -> Result<Got<&[u8]>, Refusal>
    ensures { BlockAt chunk.now n at result }
{
    let value = Span { start: at, len: n }.of(chunk);
    if value.len() < n {
        return Err(Refusal::Truncated);
    }
    Ok(Got {
        value,
        next: at + value.len(),
    })
}

// The N bytes at a place.
pub fn bytes_at<const N: usize>(chunk: &[u8], at: usize) -> Result<Got<[u8; N]>, Refusal>
    ensures { ReadAt chunk.now (load_block N) at result }
{
    let b = block_at(chunk, at, N)?;
    Ok(b.with(b.value.try_into().unwrap()))
}

// The byte at a place.
pub fn byte_at(chunk: &[u8], at: usize) -> Result<Got<u8>, Refusal>
    ensures { ReadAt chunk.now load_byte at result }
{
    let value = *chunk.get(at).ok_or(Refusal::Truncated)?;
    Ok(Got {
        value,
        next: at + 1,
    })
}

// The integer at a place.
#[tactic(auto, using(crate::proofs::Bytes::int_taken))]
pub fn int_at(chunk: &[u8], at: usize) -> Result<Got<u32>, Refusal>
    ensures { ReadAt chunk.now load_int at result }
{
    let b = bytes_at::<4>(chunk, at)?;
    Ok(b.with(u32::from_le_bytes(b.value)))
}

// The size at a place, of eight bytes. One of four is the integer there. Two functions: from_le_bytes is of each type, and of no trait.
#[tactic(auto, using(crate::proofs::Bytes::size_taken))]
pub fn size_at(chunk: &[u8], at: usize) -> Result<Got<u64>, Refusal>
    ensures { ReadAt chunk.now (load_number 8) at result }
{
    let b = bytes_at::<8>(chunk, at)?;
    Ok(b.with(u64::from_le_bytes(b.value)))
}

// The number at a place, of eight bytes: its high half and its low half, as a constant has them. One size is split, and not two integers read: so one test
// serves both halves.
#[tactic(auto, using(crate::proofs::Bytes::halves_taken, crate::proofs::Bytes::halves_short))]
pub fn number_at(chunk: &[u8], at: usize) -> Result<Got<(u32, u32)>, Refusal>
    ensures { HalvesAt chunk.now at result }
{
    let n = size_at(chunk, at)?;
    Ok(n.with(halves(n.value)))
}
