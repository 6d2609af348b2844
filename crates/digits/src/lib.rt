// Numbers and strings as text, into lent bytes: by a writer in text, and here where there is room.
#![tactic(auto)]

pub mod text;

ghost use Rattle.std.specs.Prelude.{◌+◌, ◌≤◌, ◌<◌, ◌≡◌, [], ◌∷◌, length};
ghost use Rattle.std.proofs.lemmas.List.Edits.{sets};
ghost use Rattle.digits.specs.Digits.{digit, digits, places, decimal};
ghost use Rattle.digits.specs.Room.{PutsWithin, Width};

// The digit of d, which is below 16.
fn digit(d: u8) -> u8
    requires { d < 16 }
    ensures { result ≡ digit d }
{
    if d < 10 { b'0' + d } else { b'a' - 10 + d }
}

// The functions store_* ask for room and test none. They take (out, at), so that a place stays in a register: with a Writer a listing of grouped1 took 54.7
// and not 35.1 million instructions.

// The last k digits of n, which fit, from the last to the first. A division by a number that the compiler knows is a multiplication. By index: of the items of
// iter_mut().rev() nothing is known behind the loop.
#[tactic(auto, unfolding(crate::specs::Digits::digits))]
fn store_digits<const BASE: u64>(out: &mut [u8], at: usize, n: u64, k: usize)
    requires { (at + k ≤ length out.old) × (1 < BASE) × (BASE < 17) }
    ensures { out.new ≡ sets out.old at (digits BASE k n) }
{
    let mut left = n;
    for i in (0..k).rev() {
        out[at + i] = digit((left % BASE) as u8);
        left /= BASE;
    }
}

// How many digits n has in base 10.
#[tactic(auto, using(crate::proofs::Numbers::places_is))]
fn places(n: u64) -> usize
    ensures is { result ≡ places n }
    ensures upto { result ≤ 20 }
{
    n.max(1).ilog10() as usize + 1
}

// How many digits n has in base 10, at most 10.
#[tactic(auto, using(crate::proofs::Rooms::places_upto, crate::proofs::Numbers::length_digits))]
pub fn width(n: u32) -> usize
    ensures { Width (decimal n) 10 result }
{
    places(u64::from(n))
}

// A byte, which fits. Answers the next place.
pub fn store_byte(out: &mut [u8], at: usize, b: u8) -> usize
    requires { at < length out.old }
    ensures { PutsWithin (b ∷ []) 1 at out.old result out.new }
{
    out[at] = b;
    at + 1
}

// n in base 10, which fits: it has k digits.
#[tactic(auto, using(crate::proofs::Rooms::fit_decimal))]
fn store_places(out: &mut [u8], at: usize, n: u32, k: usize) -> usize
    requires { (at + k ≤ length out.old) × Width (decimal n) 10 k }
    ensures { PutsWithin (decimal n) 10 at out.old result out.new }
{
    store_digits::<10>(out, at, u64::from(n), k);
    at + k
}

// n in base 10, which fits: it has at most 10 digits. Without the cases, in which the compiler knows the length, a number of one digit takes 36 instructions
// and not 14, one of three 58 and not 36. The bar is that of steps (docs/PERFORMANCE.md).
#[tactic(auto, using(crate::proofs::Rooms::width_decimal))]
pub fn store_decimal(out: &mut [u8], at: usize, n: u32) -> usize
    requires { at + 10 ≤ length out.old }
    ensures { PutsWithin (decimal n) 10 at out.old result out.new }
{
    match n {
        0..=9 => store_places(out, at, n, 1),
        10..=99 => store_places(out, at, n, 2),
        100..=999 => store_places(out, at, n, 3),
        1000..=9999 => store_places(out, at, n, 4),
        _ => store_places(out, at, n, width(n)),
    }
}
