// What is read goes to lent memory: words and text by total writes, which also count.
#![tactic(auto)]

pub mod cursor;
pub mod ints;

ghost use Rattle.std.specs.Prelude.{◌≡◌, [], ◌<◌};
ghost use Rattle.utf8.specs.Utf8.{repair};
ghost use Rattle.format.specs.Read.{load_byte, load_int, load_count, load_string, load_text};
ghost use Rattle.format.specs.Store.{plain, string, ◌⊕◌};
ghost use Rattle.format.specs.Store.{word as word_piece};
ghost use Rattle.load.specs.Loads.{space, Does, PutsText, Moves, Stores, Loads, LoadsBy, repaired_name, repaired_source_piece};

use cursor::ChunkReader;
use format::{Refusal, Tag, low};
use lent::Writer;
use load_state::cursor::Got;

// The state of the reader: the chunk with its place and the width of sizes, and lent memory with the places of what is stored next.
// Places of its own, no Writer: at the end of a loan inside it only the length of the words would be known.
#[derive(Drop)]
pub struct Loader<'a> {
    pub reader: ChunkReader<'a>,
    pub words: &'a mut [u32],
    pub words_at: usize,
    pub text: &'a mut [u8],
    pub text_at: usize,
}

impl<'a> Loader<'a> {
    // Bytes go to the text, repaired.
    fn put_repaired(&mut self, bytes: &[u8])
        ensures { PutsText (repair bytes.now) self.old self.new }
    {
        let out = &mut *self.text;
        let mut w = Writer {
            out,
            at: self.text_at,
        };
        utf8::put_repaired(&mut w, bytes);
        self.text_at = w.at;
    }

    // A word is stored.
    pub fn put(&mut self, v: u32)
        ensures stores { Stores (word_piece v) self.old self.new }
        ensures text { self.new.text.now ≡ self.old.text.now }
    {
        self.words_at = lent::put(self.words, self.words_at, v);
    }

    // N words are stored: where all fit, the room is tested once.
    pub fn put_words<const N: usize>(&mut self, words: [u32; N])
        ensures { Stores (plain words.entry) self.old self.new }
    {
        self.words_at = lent::put_array(self.words, self.words_at, words);
    }

    // A name is stored: its bytes, repaired, as text, its place and its length as words.
    fn put_name(&mut self, bytes: &[u8])
        ensures { Stores (repaired_name bytes.now) self.old self.new }
    {
        let start = self.text_at;
        self.put_repaired(bytes);
        let len = self.text_at.saturating_sub(start);
        self.put_words([low(start), low(len)]);
    }

    // A source of a function's own: 1 before what stands of a name.
    fn put_source(&mut self, bytes: &[u8])
        ensures { Stores (word_piece 1 ⊕ repaired_name bytes.now) self.old self.new }
    {
        self.put(1);
        self.put_name(bytes);
    }

    // A string constant: its tag, and its bytes as they are. Its three words are put at once: with the tag before the two others, proved, store of 60,000
    // short strings took 9.71 and not 8.57 million instructions, over the bar of steps (docs/PERFORMANCE.md).
    pub fn put_str(&mut self, bytes: &[u8])
        ensures { Stores (word_piece 4 ⊕ string bytes.now) self.old self.new }
    {
        let start = self.text_at;
        self.text_at = lent::put_all(self.text, start, bytes);
        let len = self.text_at.saturating_sub(start);
        self.put_words([Tag::String as u32, low(start), low(len)]);
    }

    // Moves on behind what was read, and answers it.
    pub fn advance<T: Copy>(&mut self, got: Got<T>) -> T
        ensures { (result ≡ got.value) × Moves got.next self.old self.new }
    {
        self.reader.state.pos = got.next;
        got.value
    }

    // A name goes from the chunk to lent memory.
    pub fn load_name(&mut self) -> Result<(), Refusal>
        ensures { Loads (load_text self.old.reader.size_4) repaired_name self.old self.new result }
    {
        let name = self.advance(self.reader.load_text()?);
        self.put_name(name.of(self.reader.state.chunk));
        Ok(())
    }

    // A source: the function's own, or none, which is three zeros.
    pub fn load_source(&mut self) -> Result<(), Refusal>
        ensures { Loads (load_string self.old.reader.size_4) repaired_source_piece self.old self.new result }
    {
        match self.advance(self.reader.load_string()?) {
            None => self.put_words([0, 0, 0]),
            Some(s) => self.put_source(s.of(self.reader.state.chunk)),
        }
        Ok(())
    }

    // A byte, which is not stored.
    pub fn load_byte(&mut self) -> Result<u8, Refusal>
        ensures { (LoadsBy load_byte (λ a b. (a ≡ b) × (space self.new ≡ space self.old)) self.old self.new result) × (space self.new ≡ space self.old) }
    {
        Ok(self.advance(self.reader.state.load_byte()?))
    }

    // An integer goes from the chunk to the words. The text stays, refused or not.
    pub fn copy_int(&mut self) -> Result<(), Refusal>
        ensures loads { Loads load_int word_piece self.old self.new result }
        ensures text { self.new.text.now ≡ self.old.text.now }
    {
        let v = self.advance(self.reader.state.load_int()?);
        self.put(v);
        Ok(())
    }

    // So does a count, which is answered too.
    pub fn copy_count(&mut self) -> Result<u32, Refusal>
        ensures loads { LoadsBy load_count (λ a n. (a ≡ n) × Does (word_piece a) (space self.old) (space self.new)) self.old self.new result }
        ensures text { self.new.text.now ≡ self.old.text.now }
    {
        let n = self.advance(self.reader.load_count()?);
        self.put(n);
        Ok(n)
    }
}
