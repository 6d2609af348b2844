// Stores in records: 2 bytes n, n runs of words (2 bytes how many, 4 bytes the word), 2 bytes length, the text.
ghost use Rattle.std.specs.Prelude.{◌≡◌, ◌≤◌, length, replicate};

use crate::{Records, UNTOUCHED, first};

// Space for W words and T text bytes, and how many of them are the store's.
// Lengths beside arrays, not slices: the memory is fixed, and a case may ask about what stands behind the store.
#[derive(Drop)]
pub struct Space<const W: usize, const T: usize> {
    pub words: [u32; W],
    pub text: [u8; T],
    pub used_words: usize,
    pub used_text: usize,
}

impl<const W: usize, const T: usize> Space<W, T> {
    // Space for a store.
    pub fn new() -> Self {
        Space {
            words: [0; W],
            text: [0; T],
            used_words: 0,
            used_text: 0,
        }
    }

    // Untouched space.
    pub fn untouched() -> Self
        ensures { (result.words ≡ replicate W 7) × (result.text ≡ replicate T 7) }
    {
        Space {
            words: [u32::from(UNTOUCHED); W],
            text: [UNTOUCHED; T],
            used_words: 0,
            used_text: 0,
        }
    }

    // As many words and text bytes as a record lends: 2 bytes each, how many.
    pub fn lend(&mut self, records: &mut Records) -> (&mut [u32], &mut [u8])
        ensures { (length result.0.now ≤ W) × (length result.1.now ≤ T) }
    {
        let words = &mut self.words[..];
        let text = &mut self.text[..];
        let n = words.len().min(usize::from(records.half()));
        let m = text.len().min(usize::from(records.half()));
        (&mut words[..n], &mut text[..m])
    }

    // The store's words.
    pub fn words(&self) -> &[u32] {
        first(&self.words, self.used_words)
    }

    // The store's text.
    pub fn text(&self) -> &[u8] {
        first(&self.text, self.used_text)
    }

    // The store of a record.
    pub fn read(&mut self, records: &mut Records) {
        let mut words = &mut self.words[..];
        for _ in 0..records.half() {
            let n = words.len().min(usize::from(records.half()));
            let (run, rest) = words.split_at_mut(n);
            run.fill(records.word());
            words = rest;
        }
        self.used_words = W - words.len();
        let text = first(records.text(), T);
        self.text[..text.len()].copy_from_slice(text);
        self.used_text = text.len();
    }
}
