// Writing to lent memory. What is past the end is not written, and a place stops at the farthest. Over the memory and a place, of items of any type: a
// Writer, which is of bytes, is made of these. There is no Writer of words: inside Loader only the length would be known at the end of its loan, and dump's
// place would go through memory.
#![tactic(auto)]

ghost use Rattle.std.specs.Prelude.{ℕ, ◌+◌, ◌≤◌, ◌<◌, ◌≡◌, List, [], ◌∷◌, length};
ghost use Rattle.lent.specs.Memory.{Puts};
ghost use Rattle.lent.specs.Whole.{PutsWhole};
ghost use Rattle.lent.specs.Writer.{Writes};

// Items over N others: they are read before one is written, so that they are moved at once.
fn copy_block<T: Copy, const N: usize>(to: &mut [T], s: &[T])
    requires { (length s.now ≡ N) × (length to.old ≡ N) }
    ensures { to.new ≡ s.now }
{
    let block: [T; N] = s.try_into().unwrap();
    to.copy_from_slice(&block);
}

// Items over as many, as the first N of them and the last N, which may lie over the first.
fn copy_ends<T: Copy, const N: usize>(to: &mut [T], s: &[T])
    requires { (length s.now ≡ length to.old) × (N ≤ length s.now) × (length s.now ≤ N + N) }
    ensures { to.new ≡ s.now }
{
    let last = s.len() - N;
    copy_block::<T, N>(&mut to[..N], &s[..N]);
    copy_block::<T, N>(&mut to[last..], &s[last..]);
}

// Items over as many, one by one: std's copy_from_slice is a call of memmove, which the archive for C would need from outside.
#[tactic(auto, using(crate::proofs::Writes::each_none, crate::proofs::Writes::each_more, crate::proofs::Writes::each_all))]
fn copy_each<T: Copy>(to: &mut [T], s: &[T])
    requires { length s.now ≡ length to.old }
    ensures { to.new ≡ s.now }
{
    for i in 0..s.len() {
        to[i] = s[i];
    }
}

// Items over as many. Few are moved at once, with no call that copies memory.
pub fn copy<T: Copy>(to: &mut [T], s: &[T])
    requires { length s.now ≡ length to.old }
    ensures { to.new ≡ s.now }
{
    match s.len() {
        0 => {}
        1..=2 => copy_ends::<T, 1>(to, s),
        3..=4 => copy_ends::<T, 2>(to, s),
        5..=8 => copy_ends::<T, 4>(to, s),
        9..=16 => copy_ends::<T, 8>(to, s),
        17..=32 => copy_ends::<T, 16>(to, s),
        _ => copy_each(to, s),
    }
}

// An item. Answers the next place. Tried as put_array of one: it stays open that one item of any type takes less than 2^63 bytes.
pub fn put<T: Copy>(out: &mut [T], at: usize, item: T) -> usize
    ensures { Puts (item ∷ []) at out.old result out.new }
{
    if at < out.len() {
        out[at] = item;
    }
    at.saturating_add(1)
}

// Items. Answers the next place.
#[tactic(auto, using(crate::proofs::Writes::put_part, crate::proofs::Writes::put_lost, crate::proofs::Writes::sets_part))]
pub fn put_all<T: Copy>(out: &mut [T], at: usize, s: &[T]) -> usize
    ensures { Puts s.now at out.old result out.new }
{
    if at < out.len() {
        let n = s.len().min(out.len() - at);
        copy(&mut out[at..at + n], &s[..n]);
    }
    at.saturating_add(s.len())
}

// N items: where all fit, the room is tested once. Answers the next place.
#[tactic(auto, using(crate::proofs::Writes::put_lost, crate::proofs::Writes::sets_part))]
pub fn put_array<T: Copy, const N: usize>(out: &mut [T], at: usize, items: [T; N]) -> usize
    ensures { Puts items at out.old result out.new }
{
    if out.len() <= at {
        return at.saturating_add(N);
    }
    if out.len() - at < N {
        return put_cut(out, at, items);
    }
    out[at..at + N].copy_from_slice(&items);
    at + N
}

// The same where not all fit.
#[cold]
fn put_cut<T: Copy, const N: usize>(out: &mut [T], at: usize, items: [T; N]) -> usize
    ensures { Puts items at out.old result out.new }
{
    put_all(out, at, &items)
}

// Bytes that f writes from the start, where all fit: f first with no space, to count. Answers how many they are, none where they do not fit.
#[tactic(auto, using(crate::proofs::Writes::whole_fits))]
pub fn write_whole<F: Fn(&mut [u8]) -> usize>(out: &mut [u8], f: F) -> Option<usize>
    requires { F.IsAlwaysCallable f }
    ensures { (bytes : List ℕ) → ((x : _) (r : _) (y : _) → F.post f x r y → Puts bytes 0 x.now r y.now) → PutsWhole bytes out.old result out.new }
{
    let n = f(&mut []);
    if out.len() < n {
        return None;
    }
    Some(f(out))
}

// Lent bytes, and the place in them where what is put next goes.
#[derive(Drop)]
pub struct Writer<'a> {
    pub out: &'a mut [u8],
    pub at: usize,
}

impl<'a> Writer<'a> {
    // A byte.
    pub fn put_byte(&mut self, b: u8)
        ensures { Writes (b ∷ []) self.old self.new }
    {
        self.at = put(self.out, self.at, b);
    }

    // Bytes.
    pub fn put_bytes(&mut self, s: &[u8])
        ensures { Writes s.now self.old self.new }
    {
        self.at = put_all(self.out, self.at, s);
    }
}
