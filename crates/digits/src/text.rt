// Numbers and strings as text, by a writer.
#![tactic(auto, using(lent::proofs::Writers::writes_first, lent::proofs::Writers::writes_then))]

ghost use Rattle.std.specs.Prelude.{◌≤◌, ◌<◌, ◌≡◌};
ghost use Rattle.lent.specs.Writer.{Writes};
ghost use Rattle.digits.specs.Digits.{digits, decimal, negative, number_bits};
ghost use Rattle.digits.specs.Digits.{letter, is_print, is_plain, escape, escaped, quoted};

use crate::{places, store_digits};
use lent::Writer;

// The last k digits of n, of at most 20. Past the end they are only counted (in 27 instructions for ten digits, by the third branch alone in 164), and where
// they fit they are stored there: by the third branch alone it takes 7.0 and not 5.9 million instructions of a full listing of grouped1, over the bar of
// steps (docs/PERFORMANCE.md).
#[tactic(auto, using(crate::proofs::Numbers::length_digits, crate::proofs::Rooms::stored, crate::proofs::Rooms::writes_room))]
fn put_digits<const BASE: u64>(w: &mut Writer, n: u64, k: usize)
    requires { (k ≤ 20) × (1 < BASE) × (BASE < 17) }
    ensures { Writes (digits BASE k n) w.old w.new }
{
    if w.out.len() <= w.at {
        w.at = w.at.saturating_add(k);
    } else if k <= w.out.len() - w.at {
        store_digits::<BASE>(w.out, w.at, n, k);
        w.at += k;
    } else {
        let mut all = [0; 20];
        store_digits::<BASE>(&mut all, 0, n, k);
        w.put_bytes(&all[..k]);
    }
}

// n in base 10. Tried: write!(w, "{n}"), with fmt::Write for Writer. The proof did not close: where it answers an error nothing is known of w, and no clause
// says that it answers none.
pub fn put_decimal(w: &mut Writer, n: u64)
    ensures { Writes (decimal n) w.old w.new }
{
    put_digits::<10>(w, n, places(n));
}

// - n in base 10.
pub fn put_negative(w: &mut Writer, n: u64)
    ensures { Writes (negative n) w.old w.new }
{
    w.put_byte(b'-');
    put_decimal(w, n);
}

// The bits of a number constant: 0x and 16 digits in base 16.
pub fn put_number(w: &mut Writer, n: u64)
    ensures { Writes (number_bits n) w.old w.new }
{
    w.put_byte(b'0');
    w.put_byte(b'x');
    put_digits::<16>(w, n, 16);
}

// The letter that stands for a byte after a backslash. Rust has no names for C's \a, \b, \f and \v: they are 7, 8, 12 and 11.
#[tactic(auto, unfolding(crate::specs::Digits::letter_in))]
fn letter(b: u8) -> Option<u8>
    ensures { result ≡ letter b }
{
    match b {
        b'"' | b'\\' => Some(b),
        b'\x07' => Some(b'a'),
        b'\x08' => Some(b'b'),
        b'\x0c' => Some(b'f'),
        b'\n' => Some(b'n'),
        b'\r' => Some(b'r'),
        b'\t' => Some(b't'),
        b'\x0b' => Some(b'v'),
        _ => None,
    }
}

// Whether a byte is graphic ASCII or a space.
fn is_print(b: u8) -> bool
    ensures { result ≡ is_print b }
{
    matches!(b, b' '..=b'~')
}

// Whether a byte is written as itself.
fn is_plain(b: u8) -> bool
    ensures { result ≡ is_plain b }
{
    b != b'"' && b != b'\\' && is_print(b)
}

// A byte of a quoted string.
#[tactic(auto, using(crate::proofs::Strings::escape_letter, crate::proofs::Strings::escape_print, crate::proofs::Strings::escape_digits, lent::proofs::Writers::writes_first))]
fn put_escape(w: &mut Writer, b: u8)
    ensures { Writes (escape b) w.old w.new }
{
    if let Some(l) = letter(b) {
        w.put_byte(b'\\');
        w.put_byte(l);
    } else if is_print(b) {
        w.put_byte(b);
    } else {
        w.put_byte(b'\\');
        put_digits::<10>(w, u64::from(b), 3);
    }
}

// The bytes of a quoted string, those that are written as themselves together.
fn put_escaped(w: &mut Writer, s: &[u8])
    ensures { Writes (escaped s.now) w.old w.new }
{
    for run in s.split_inclusive(|b| !is_plain(*b)) {
        if let Some((last, plain)) = run.split_last() {
            w.put_bytes(plain);
            put_escape(w, *last);
        }
    }
}

// A string in quotes.
pub fn put_quoted(w: &mut Writer, s: &[u8])
    ensures { Writes (quoted s.now) w.old w.new }
{
    w.put_byte(b'"');
    put_escaped(w, s);
    w.put_byte(b'"');
}
