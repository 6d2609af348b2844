// UTF-8: whether bytes are well-formed, and their repair. The functions go over bytes and a place: over a slice that begins at the place the test of validity
// takes 1.1 to 1.4 times as many instructions. The bar, here and below, is that of steps (docs/PERFORMANCE.md). That the place lies within the bytes is asked
// for in each: a struct that held both would be built anew at each step, and the bound proved again.
#![tactic(auto)]

ghost use Rattle.std.specs.Prelude.{◌+◌, ◌≤◌, ◌<◌, ◌≡◌, true, length, take, drop};
ghost use Rattle.lent.specs.Memory.{Puts};
ghost use Rattle.lent.specs.Writer.{Writes};
ghost use Rattle.utf8.specs.Utf8.{◌‥◌, table3_7, first_step, is_utf8, is_ascii, repair as repaired};
ghost use Rattle.utf8.specs.Rows.{row_of, step_of, second_low, second_high, begun_at, begins};
ghost use Rattle.utf8.specs.Text.{Text, TextEnd};

use lent::Writer;

// Whether a byte stands at a place and lies in a range.
fn in_range(bytes: &[u8], at: usize, low: u8, high: u8) -> bool
    ensures { result ≡ begins (low ‥ high) (drop at bytes.now) }
{
    at < bytes.len() && (low..=high).contains(&bytes[at])
}

// The least second byte behind a lead byte. Tried: a pair of both from one match. 60,000 bytes of sequences of three took 163 microseconds and not 72.
fn second_low(b: u8) -> u8
    ensures { result ≡ second_low b }
{
    match b {
        0xe0 => 0xa0,
        0xf0 => 0x90,
        _ => 0x80,
    }
}

// The greatest second byte behind a lead byte.
fn second_high(b: u8) -> u8
    ensures { result ≡ second_high b }
{
    match b {
        0xed => 0x9f,
        0xf4 => 0x8f,
        _ => 0xbf,
    }
}

// How many bytes the row of a lead byte has, 0 where it leads none, as the definition has it. Tried: an Option. 60,000 bytes of sequences of
// four took 148 microseconds to test and repair and not 111.
#[tactic(auto, unfolding(crate::specs::Rows::row_of))]
fn row_len(b: u8) -> usize
    ensures { result ≡ length (row_of table3_7 b) }
{
    match b {
        0x00..=0x7f => 1,
        0x80..=0xc1 => 0,
        0xc2..=0xdf => 2,
        0xe0..=0xef => 3,
        0xf0..=0xf4 => 4,
        0xf5..=0xff => 0,
    }
}

// How many bytes from a place on begin a sequence of n: the lead byte, and those behind it that lie in their ranges.
#[tactic(auto, using(crate::proofs::Rows::begun_stop, crate::proofs::Rows::begun_more, crate::proofs::Rows::begun_done))]
fn begun_at(bytes: &[u8], at: usize, n: usize) -> usize
    requires { at < length bytes.now }
    ensures { result ≡ begun_at bytes.now at n }
{
    let b = bytes[at];
    let mut low = second_low(b);
    let mut high = second_high(b);
    for k in 1..n {
        if !in_range(bytes, at + k, low, high) {
            return k;
        }
        low = 0x80;
        high = 0xbf;
    }
    n.max(1)
}

// The repair step, what stands first from a place on: a well-formed sequence of so many bytes, or else a maximal subpart of an ill-formed one.
#[tactic(auto, using(crate::proofs::Rows::step_none, crate::proofs::Rows::step_led))]
pub fn step_at(bytes: &[u8], at: usize) -> Result<usize, usize>
    ensures { step_of result ≡ first_step (drop at bytes.now) }
{
    if bytes.len() <= at {
        return Err(0);
    }
    let n = row_len(bytes[at]);
    let len = begun_at(bytes, at, n);
    if len == n { Ok(len) } else { Err(len) }
}

// Whether a well-formed sequence of N bytes stands at a place.
fn sequence<const N: usize>(bytes: &[u8], at: usize) -> bool
    requires { at < length bytes.now }
    ensures { result ≡ true → Text bytes.now at (at + N) }
{
    row_len(bytes[at]) == N && begun_at(bytes, at, N) == N
}

// Whether bytes are ASCII.
#[tactic(auto, using(crate::proofs::Ascii::ascii_is))]
pub fn is_ascii(bytes: &[u8]) -> bool
    ensures { result ≡ is_ascii bytes.now }
{
    bytes.is_ascii()
}

// Whether the 32 bytes from a place on are ASCII, by the greatest of them. The loop has one way out, so that it becomes vector instructions. Tried: is_ascii,
// which searches what is not all ASCII for the first byte that is not. Text with an accent here and there took 1.4 times as many instructions.
#[tactic(auto, using(crate::proofs::Ascii::greatest_more))]
fn is_ascii_block(bytes: &[u8], at: usize) -> bool
    requires { at + 32 ≤ length bytes.now }
    ensures { result ≡ is_ascii (take 32 (drop at bytes.now)) }
{
    let mut top: u8 = 0;
    for i in 0..32 {
        top = top.max(bytes[at + i]);
    }
    top < 0x80
}

// The end of the blocks of 32 bytes of ASCII at a place.
#[tactic(auto, using(crate::proofs::Texts::text_none, crate::proofs::Texts::text_ascii, crate::proofs::Texts::text_join))]
fn ascii_blocks(bytes: &[u8], at: usize) -> usize
    requires { at ≤ length bytes.now }
    ensures { Text bytes.now at result }
{
    // Tried: at + 32 * bytes[at..].chunks_exact(32).take_while(..).count(). The proof did not close: it tells of the chunks by two iterators' steps.
    let mut i = at;
    while 32 <= bytes.len() - i && is_ascii_block(bytes, i) {
        i += 32;
    }
    i
}

// The end of the ASCII at a place. Tried: position over the slice behind the blocks. 60,000 bytes of ASCII took 24,568 instructions and not 22,692, and ASCII
// with some sequences of three 617,799 and not 581,671.
#[tactic(auto, using(crate::proofs::Texts::text_byte, crate::proofs::Texts::text_join))]
fn ascii_end(bytes: &[u8], at: usize) -> usize
    requires { at ≤ length bytes.now }
    ensures { Text bytes.now at result }
{
    for i in ascii_blocks(bytes, at)..bytes.len() {
        if 0x80 <= bytes[i] {
            return i;
        }
    }
    bytes.len()
}

// The end of the well-formed text at a place. ASCII and sequences of two and three bytes are tried first, since they are the most common.
#[tactic(auto, using(crate::proofs::Texts::text_none, crate::proofs::Texts::text_byte, crate::proofs::Texts::text_join))]
fn text_end(bytes: &[u8], at: usize) -> usize
    requires { at ≤ length bytes.now }
    ensures { TextEnd bytes.now at result }
{
    // A turn passes ASCII or one sequence. How far is known only in the turn, so that a `for` would need an iterator of its own.
    let mut i = at;
    while i < bytes.len() {
        if bytes[i] < 0x80 {
            i = ascii_end(bytes, i + 1);
        } else if sequence::<2>(bytes, i) {
            i += 2;
        } else if sequence::<3>(bytes, i) {
            i += 3;
        } else {
            match step_at(bytes, i) {
                Ok(n) => i += n,
                Err(_) => return i,
            }
        }
    }
    i
}

// Whether bytes are well-formed UTF-8. Tried: std's from_utf8. 60,000 bytes of sequences of two take 0.81 and not 0.42 million instructions, those
// of three 0.86 and not 0.70 (those of four 0.68 and not 1.17, ASCII 0.01 and not 0.02).
#[tactic(auto, using(crate::proofs::Texts::text_whole))]
pub fn is_utf8(bytes: &[u8]) -> bool
    ensures { result ≡ is_utf8 bytes.now }
{
    text_end(bytes, 0) == bytes.len()
}

// Writes bytes, each maximal subpart of an ill-formed subsequence replaced by U+FFFD. Tried: std's utf8_chunks. Sequences of two take twice as many
// instructions, those of three a fifth more. And the step of repair is to be by the rows of the standard, a rule of the project.
fn put_steps(w: &mut Writer, bytes: &[u8])
    ensures { Writes (repaired bytes.now) w.old w.new }
{
    // A turn passes text and one step. How far is known only in the turn, as in text_end.
    let mut i = 0;
    loop {
        let end = text_end(bytes, i);
        w.put_bytes(&bytes[i..end]);
        if bytes.len() <= end {
            return;
        }
        w.put_bytes(b"\xef\xbf\xbd");
        let (Ok(n) | Err(n)) = step_at(bytes, end);
        i = end + n;
    }
}

// The same, where ASCII, which most names are, is copied at once: in the caller, since a call for each name made the reader take a tenth more instructions.
#[inline(always)]
#[tactic(auto, using(crate::proofs::Ascii::repair_ascii))]
pub fn put_repaired(w: &mut Writer, bytes: &[u8])
    ensures { Writes (repaired bytes.now) w.old w.new }
{
    if is_ascii(bytes) {
        w.put_bytes(bytes);
    } else {
        put_steps(w, bytes);
    }
}

// The same for callers that have bytes and a place, and no writer: here test_leaves alone. It stays, as docs/CLAIMS.md says what it promises. Answers the
// next place.
pub fn repair(bytes: &[u8], out: &mut [u8], at: usize) -> usize
    ensures { Puts (repaired bytes.now) at out.old result out.new }
{
    let mut w = Writer { out, at };
    put_repaired(&mut w, bytes);
    w.at
}
