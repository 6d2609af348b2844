// The integers and strings of a chunk, written, or only counted where STORED is false. What takes a place answers the one behind what it writes. Over the
// space and a place by value, as list.rt says.
ghost use Rattle.std.specs.Prelude.{◌*◌, ◌≡◌, [], ◌∷◌, ◌++◌, length};
ghost use Rattle.lent.specs.Memory.{Puts};
ghost use Rattle.format.specs.Write.{dump_int, dump_size, dump_text, each};
ghost use Rattle.dump.specs.Step.{seen};

use format::low;
use lent::{copy, put, put_all, put_array};
use proto::formed::is_within;

// How a chunk is written: whether without debug lists, and whether sizes take four bytes.
#[derive(Clone, Copy)]
pub struct Options {
    pub strip: bool,
    pub size_4: bool,
}

// N bytes.
#[tactic(auto, using(lent::proofs::Writes::put_lost))]
pub fn dump_array<const STORED: bool, const N: usize>(
    out: &mut [u8],
    at: usize,
    bytes: [u8; N],
) -> usize
    ensures { Puts bytes.entry at (seen STORED out.old) result (seen STORED out.new) }
{
    if STORED {
        put_array(out, at, bytes)
    } else {
        at.saturating_add(N)
    }
}

// An integer: four bytes, low byte first.
#[tactic(auto, using(crate::proofs::Blocks::int_put))]
pub fn dump_int<const STORED: bool>(out: &mut [u8], at: usize, n: u32) -> usize
    ensures { Puts (dump_int n) at (seen STORED out.old) result (seen STORED out.new) }
{
    dump_array::<STORED, 4>(out, at, n.to_le_bytes())
}

// A byte and N others: where all fit, the room is tested once.
#[tactic(auto, using(crate::proofs::Blocks::tagged_fits))]
fn put_tagged<const N: usize>(out: &mut [u8], at: usize, tag: u8, bytes: [u8; N]) -> usize
    ensures { Puts (tag ∷ bytes.entry) at out.old result out.new }
{
    if is_within(out.len(), at, 1 + N) {
        let start = at + 1;
        out[at] = tag;
        out[start..start + N].copy_from_slice(&bytes);
        return start + N;
    }
    put_tagged_cut(out, at, tag, bytes)
}

// The same where not all fit.
#[cold]
#[tactic(auto, using(crate::proofs::Blocks::tagged_put))]
fn put_tagged_cut<const N: usize>(out: &mut [u8], at: usize, tag: u8, bytes: [u8; N]) -> usize
    ensures { Puts (tag ∷ bytes.entry) at out.old result out.new }
{
    let start = put(out, at, tag);
    put_array(out, start, bytes)
}

// The same, or only counted.
#[tactic(auto, using(lent::proofs::Writes::put_lost))]
pub fn dump_tagged<const STORED: bool, const N: usize>(
    out: &mut [u8],
    at: usize,
    tag: u8,
    bytes: [u8; N],
) -> usize
    ensures { Puts (tag ∷ bytes.entry) at (seen STORED out.old) result (seen STORED out.new) }
{
    if STORED {
        put_tagged(out, at, tag, bytes)
    } else {
        at.saturating_add(1 + N)
    }
}

// N bytes, others, and a zero: where all fit, the room is tested once.
#[tactic(auto, using(crate::proofs::Blocks::ended_fits))]
fn put_ended<const N: usize>(out: &mut [u8], at: usize, size: [u8; N], s: &[u8]) -> usize
    ensures { Puts (size.entry ++ s.now ++ (0 ∷ [])) at out.old result out.new }
{
    if at < out.len() && N + s.len() < out.len() - at {
        let start = at + N;
        let end = start + s.len();
        out[at..start].copy_from_slice(&size);
        copy(&mut out[start..end], s);
        out[end] = 0;
        return end + 1;
    }
    put_ended_cut(out, at, size, s)
}

// The same where not all fit.
#[cold]
#[tactic(auto, using(crate::proofs::Blocks::ended_put))]
fn put_ended_cut<const N: usize>(out: &mut [u8], at: usize, size: [u8; N], s: &[u8]) -> usize
    ensures { Puts (size.entry ++ s.now ++ (0 ∷ [])) at out.old result out.new }
{
    let start = put_array(out, at, size);
    let end = put_all(out, start, s);
    put(out, end, 0)
}

// The same, or only counted.
#[tactic(auto, using(crate::proofs::Blocks::ended_lost))]
fn dump_ended<const STORED: bool, const N: usize>(
    out: &mut [u8],
    at: usize,
    size: [u8; N],
    s: &[u8],
) -> usize
    ensures { Puts (size.entry ++ s.now ++ (0 ∷ [])) at (seen STORED out.old) result (seen STORED out.new) }
{
    if STORED {
        put_ended(out, at, size, s)
    } else {
        at.saturating_add(N + s.len() + 1)
    }
}

impl Options {
    // A size: four bytes or eight, low byte first.
    #[tactic(auto, using(crate::proofs::Blocks::size_short, crate::proofs::Blocks::size_long))]
    pub fn dump_size<const STORED: bool>(self, out: &mut [u8], at: usize, n: usize) -> usize
        ensures { Puts (dump_size self.size_4 n) at (seen STORED out.old) result (seen STORED out.new) }
    {
        if self.size_4 {
            dump_int::<STORED>(out, at, low(n))
        } else {
            dump_array::<STORED, 8>(out, at, n.to_le_bytes())
        }
    }

    // A string: its length and one, its bytes, a zero. In the caller, where the width is tested; it takes as many instructions as by a call.
    #[inline(always)]
    #[tactic(auto, using(crate::proofs::Blocks::string_short, crate::proofs::Blocks::string_long))]
    pub fn dump_string<const STORED: bool>(self, out: &mut [u8], at: usize, s: &[u8]) -> usize
        ensures { Puts (dump_text self.size_4 s.now) at (seen STORED out.old) result (seen STORED out.new) }
    {
        let n = s.len() + 1;
        if self.size_4 {
            dump_ended::<STORED, 4>(out, at, low(n).to_le_bytes(), s)
        } else {
            dump_ended::<STORED, 8>(out, at, n.to_le_bytes(), s)
        }
    }
}

// Integers, over as many bytes as they take. By index: of the items of chunks_exact_mut or as_chunks_mut nothing is known behind the loop.
#[tactic(auto, using(crate::proofs::Blocks::ints_start, crate::proofs::Blocks::ints_turn))]
fn store_ints(to: &mut [u8], l: &[u32])
    requires { length to.old ≡ 4 * length l.now }
    ensures { to.new ≡ each dump_int l.now }
{
    for (i, v) in l.iter().enumerate() {
        to[4 * i..4 * i + 4].copy_from_slice(&v.to_le_bytes());
    }
}

// Integers, one behind the other: as many as fit, and what fits of the next one.
fn put_ints(out: &mut [u8], at: usize, l: &[u32]) -> usize
    ensures { Puts (each dump_int l.now) at out.old result out.new }
{
    let start = at.min(out.len());
    let fit = l.len().min((out.len() - start) / 4);
    store_ints(&mut out[start..start + 4 * fit], &l[..fit]);
    if fit < l.len() {
        dump_int::<true>(out, start + 4 * fit, l[fit]);
    }
    at.saturating_add(4 * l.len())
}

// The same, or only counted.
#[tactic(auto, using(lent::proofs::Writes::put_lost, crate::proofs::Blocks::ints_length))]
pub fn dump_ints<const STORED: bool>(out: &mut [u8], at: usize, l: &[u32]) -> usize
    ensures { Puts (each dump_int l.now) at (seen STORED out.old) result (seen STORED out.new) }
{
    if STORED {
        put_ints(out, at, l)
    } else {
        at.saturating_add(4 * l.len())
    }
}
