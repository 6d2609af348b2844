// Reading a chunk into lent memory (lundump.c; in the Rust, undump.rs), in two calls: one learns the space, one stores the tree.
// Words and text are apart in what serves the calls for C, as C lends them.
#![tactic(auto)]

pub mod header;

ghost use Rattle.std.specs.Prelude.{◌≡◌};
ghost use Rattle.format.specs.Undump.{undumped_result, measured, stored};
ghost use Rattle.undump.specs.Undump.{LoadsChunk, undump_left};

use format::{DEPTH, MOST, MeasuredChunk, Needs, Refusal, Undumped, check_name, width};
use header::load_header;
use load::Loader;
use load::cursor::ChunkReader;
use load_function::load_function;
use load_state::LoadState;

// What measure answers of words or text bytes that are above the limit.
const ABOVE: usize = MOST + 1;

// A chunk that was loaded: whether its sizes take 4 bytes, the words and the text bytes of its tree, and the place behind it. No MeasuredChunk: its numbers
// stop at no limit.
#[derive(Clone, Copy)]
pub struct LoadedChunk {
    pub size_4: bool,
    pub words: usize,
    pub text: usize,
    pub next: usize,
}

// The header, then the root function, whose tree goes to the words and the text (luaU_undump). They are lent to be written, where a Store is of what is read.
#[tactic(auto, using(load::proofs::Steps::reads_then, load::proofs::Steps::reads_refused_with), unfolding(format::specs::Undump::load_chunk))]
fn load_chunk(chunk: &[u8], words: &mut [u32], text: &mut [u8]) -> Result<LoadedChunk, Refusal>
    ensures { LoadsChunk chunk.now words.old text.old result words.new text.new }
{
    let header = load_header(chunk)?;
    let reader = ChunkReader {
        state: LoadState {
            chunk,
            pos: header.next,
        },
        size_4: header.value,
    };
    let mut s = Loader {
        reader,
        words,
        words_at: 0,
        text,
        text_at: 0,
    };
    load_function(&mut s, DEPTH)?;
    Ok(LoadedChunk {
        size_4: header.value,
        words: s.words_at,
        text: s.text_at,
        next: s.reader.state.pos,
    })
}

// The chunk is loaded with no space, which counts and finds what refuses it.
#[tactic(auto, using(std::proofs::lemmas::Result::err_from_is_err_and, crate::proofs::Calls::name_refused, crate::proofs::Calls::measures_refused, crate::proofs::Calls::measure_whole))]
fn load_measured(chunk: &[u8], name: &[u8]) -> Result<MeasuredChunk, Refusal>
    ensures { undumped_result result ≡ measured chunk.now name.now }
{
    check_name(name)?;
    let mut no_words = [0u32; 0];
    let mut no_text = [0u8; 0];
    let c = load_chunk(chunk, &mut no_words, &mut no_text)?;
    Ok(MeasuredChunk {
        width: u32::from(width(c.size_4)),
        needs: Needs {
            words: c.words.min(ABOVE),
            text: c.text.min(ABOVE),
            read: c.next.min(chunk.len()),
        },
    })
}

// The words and the text bytes that the tree of a chunk takes, ABOVE for all that are above the limit, and the bytes of the chunk that are read.
pub fn measure(chunk: &[u8], name: &[u8]) -> Undumped
    ensures { result ≡ measured chunk.now name.now }
{
    Undumped::from(load_measured(chunk, name))
}

// Measures a chunk again, and where it needs what was handed over and all fits, loads it into the space. Refused by 1, 2 to 7, 15, 8, 9.
#[tactic(auto, using(std::proofs::lemmas::Result::err_from_is_err_and, crate::proofs::Calls::refused_as, crate::proofs::Calls::refused_other, crate::proofs::Calls::refused_words, crate::proofs::Calls::refused_text, crate::proofs::Calls::store_whole))]
fn store_measured(
    chunk: &[u8],
    name: &[u8],
    needs: Needs,
    words: &mut [u32],
    text: &mut [u8],
) -> Result<MeasuredChunk, Refusal>
    ensures { undump_left (undumped_result result) words.new text.new ≡ stored chunk.now name.now needs.words needs.text needs.read words.old text.old }
{
    let m = load_measured(chunk, name)?;
    if needs != m.needs {
        return Err(Refusal::NotAsMeasured);
    }
    if words.len().min(MOST) < m.needs.words {
        return Err(Refusal::TooFewWords);
    }
    if text.len().min(MOST) < m.needs.text {
        return Err(Refusal::TooLittleText);
    }
    // Measured so, it is not refused here.
    let _ = load_chunk(
        chunk,
        &mut words[..m.needs.words],
        &mut text[..m.needs.text],
    );
    Ok(m)
}

// Stores the tree of a chunk in lent memory, given what measure answered of it: three numbers, as C hands them over.
pub fn store(
    chunk: &[u8],
    name: &[u8],
    need_words: usize,
    need_text: usize,
    need_read: usize,
    words: &mut [u32],
    text: &mut [u8],
) -> Undumped
    ensures { undump_left result words.new text.new ≡ stored chunk.now name.now need_words need_text need_read words.old text.old }
{
    let needs = Needs {
        words: need_words,
        text: need_text,
        read: need_read,
    };
    Undumped::from(store_measured(chunk, name, needs, words, text))
}
