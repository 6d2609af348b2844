// Texts that fit are stored, or only counted where STORED is false: both answer the same place. They go over (out, at): they ask for room and
// test none, with the places in registers, where a writer would test each byte. Tried and proved by a writer, with listing_lines' format_start:
// the listing of grouped1 took 8.1 ms and 54.7 million instructions, and not 5.9 and 35.1, a full one 10.4 ms and 69.9, and not 8.6 and 50.3.
// A listing is to take 0.4 of the Rust's time, and that of grouped1 takes 0.32 to 0.40 of it.
ghost use Rattle.std.specs.Prelude.{◌+◌, ◌≤◌, [], ◌∷◌};
ghost use Rattle.digits.specs.Digits.{decimal, negative};
ghost use Rattle.listing_operands.specs.Fit.{room, Fits};

use digits::{store_byte, store_decimal, width};

// A byte.
#[tactic(auto, unfolding(crate::specs::Fit::room))]
pub fn fit_byte<const STORED: bool>(out: &mut [u8], at: usize, b: u8) -> usize
    requires { at + 1 ≤ room STORED out.old }
    ensures { Fits STORED (b ∷ []) 1 at out.old result out.new }
{
    if STORED {
        store_byte(out, at, b)
    } else {
        at + 1
    }
}

// n in base 10.
#[tactic(auto, using(lent::proofs::Writes::put_lost), unfolding(crate::specs::Fit::room))]
pub fn fit_decimal<const STORED: bool>(out: &mut [u8], at: usize, n: u32) -> usize
    requires { at + 10 ≤ room STORED out.old }
    ensures { Fits STORED (decimal n) 10 at out.old result out.new }
{
    if STORED {
        store_decimal(out, at, n)
    } else {
        at + width(n)
    }
}

// - n in base 10.
pub fn fit_negative<const STORED: bool>(out: &mut [u8], at: usize, n: u32) -> usize
    requires { at + 11 ≤ room STORED out.old }
    ensures { Fits STORED (negative n) 11 at out.old result out.new }
{
    let a = fit_byte::<STORED>(out, at, b'-');
    fit_decimal::<STORED>(out, a, n)
}
