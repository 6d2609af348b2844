// Integers in a row, after their count: one test, and one block.
ghost use Rattle.std.specs.Prelude.{◌≡◌, ◌*◌, ◌/◌, length};
ghost use Rattle.lent.specs.Memory.{Puts};
ghost use Rattle.format.specs.Read.{load_int, load_list};
ghost use Rattle.format.specs.Store.{ints, plain};
ghost use Rattle.load.specs.Loads.{fours, Loads, Stores};

use crate::Loader;
use format::Refusal;

// As many integers as there are words, four bytes each.
#[tactic(auto, using(crate::proofs::Fours::filled), unfolding(crate::specs::Loads::fours))]
fn fill(bytes: &[u8], words: &mut [u32])
    requires { length bytes.now ≡ 4 * length words.old }
    ensures { words.new ≡ fours bytes.now 0 (length words.old) }
{
    let (chunks, _) = bytes.as_chunks::<4>();
    for (i, w) in words.iter_mut().enumerate() {
        *w = u32::from_le_bytes(chunks[i]);
    }
}

// Integers, four bytes each, go to the words, as many as there is room for. Answers the next place. lent's put_all but for what fills the part: one function
// of both would take a closure, and its contract would say what that leaves in a part of any length, where here four lines are the same.
#[tactic(auto, using(crate::proofs::Fours::ints_stored, crate::proofs::Fours::ints_lost))]
fn put_fours(bytes: &[u8], words: &mut [u32], at: usize) -> usize
    ensures { Puts (fours bytes.now 0 (length bytes.now / 4)) at words.old result words.new }
{
    let n = bytes.len() / 4;
    if at < words.len() {
        let stored = n.min(words.len() - at);
        fill(&bytes[..4 * stored], &mut words[at..at + stored]);
    }
    at.saturating_add(n)
}

impl<'a> Loader<'a> {
    // Integers are stored, four bytes each.
    fn put_ints(&mut self, bytes: &[u8])
        ensures stores { Stores (plain (fours bytes.now 0 (length bytes.now / 4))) self.old self.new }
        ensures text { self.new.text.now ≡ self.old.text.now }
    {
        self.words_at = put_fours(bytes, self.words, self.words_at);
    }

    // A list of integers: one test tells whether all are there. The text stays, refused or not.
    pub fn load_ints(&mut self) -> Result<(), Refusal>
        ensures loads { Loads (load_list load_int) ints self.old self.new result }
        ensures text { self.new.text.now ≡ self.old.text.now }
    {
        let n = self.copy_count()? as usize;
        let bytes = self.advance(self.reader.state.load_block(4 * n)?);
        self.put_ints(bytes);
        Ok(())
    }
}
