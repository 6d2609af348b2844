// Sizes, counts, strings and constants of a chunk, at the reader's place.
ghost use Rattle.format.specs.Read.{load_size, load_count};
ghost use Rattle.load_state.specs.ReadAt.{ReadFrom};
ghost use Rattle.load.specs.Loads.{Strings, Texts, ReadsConstant};

use format::{Constant, LIMIT, Refusal, Span, Tag};
use load_state::LoadState;
use load_state::cursor::Got;

// The chunk with its place, and whether sizes take four bytes: a bool, as the C interface has it.
#[derive(Clone, Copy)]
pub struct ChunkReader<'a> {
    pub state: LoadState<'a>,
    pub size_4: bool,
}

impl<'a> ChunkReader<'a> {
    // A size: four bytes, which are an integer, or eight.
    #[tactic(auto, unfolding(format::specs::Read::load_size))]
    pub fn load_size(self) -> Result<Got<u64>, Refusal>
        ensures { ReadFrom (load_size self.entry.size_4) self.entry.state result }
    {
        if !self.size_4 {
            return self.state.load_size();
        }
        let n = self.state.load_int()?;
        Ok(n.with(u64::from(n.value)))
    }

    // A list's count.
    pub fn load_count(self) -> Result<Got<u32>, Refusal>
        ensures { ReadFrom load_count self.entry.state result }
    {
        let n = self.state.load_int()?;
        if LIMIT < n.value {
            return Err(Refusal::TooManyItems);
        }
        Ok(n)
    }

    // A string: its size, which counts the last byte, and its bytes, of which the last is skipped. None where the size is 0.
    #[tactic(auto, using(crate::proofs::Strings::string_own))]
    pub fn load_string(self) -> Result<Got<Option<Span>>, Refusal>
        ensures { Strings self.entry result }
    {
        let size = self.load_size()?;
        let start = size.next;
        if size.value == 0 {
            return Ok(size.with(None));
        }
        // Neither load_block nor saturating_sub: so the compiler knows the start to lie within, and Span::of tests it no more. By load_block, proved, store of
        // 60,000 short strings took 9.05 and not 8.57 million instructions, over the bar of steps (docs/PERFORMANCE.md), by saturating_sub as many.
        let len = self.state.chunk.len();
        if len < start || ((len - start) as u64) < size.value {
            return Err(Refusal::Truncated);
        }
        let n = size.value as usize;
        Ok(Got {
            value: Some(Span { start, len: n - 1 }),
            next: start + n,
        })
    }

    // A name or a string constant: empty where there is no string.
    pub fn load_text(self) -> Result<Got<Span>, Refusal>
        ensures { Texts self.entry result }
    {
        let z = self.load_string()?;
        Ok(z.with(z.value.unwrap_or_default()))
    }

    // A constant, by its tag; a string by where it stands in the chunk.
    pub fn load_constant(self) -> Result<Got<Constant>, Refusal>
        ensures { ReadsConstant self.entry result }
    {
        let tag = self.state.load_byte()?;
        let state = LoadState {
            pos: tag.next,
            ..self.state
        };
        match Tag::try_from(u32::from(tag.value))? {
            Tag::Nil => Ok(tag.with(Constant::Nil)),
            Tag::Bool => {
                let b = state.load_byte()?;
                Ok(b.with(Constant::Bool(b.value != 0)))
            }
            Tag::Num => {
                let n = state.load_number()?;
                let (high, low) = n.value;
                Ok(n.with(Constant::Num(high, low)))
            }
            Tag::String => {
                let z = ChunkReader { state, ..self }.load_text()?;
                Ok(z.with(Constant::String(z.value)))
            }
        }
    }
}
