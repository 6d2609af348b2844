// Reading records: bytes with numbers in them, low byte first. Past the end there are zeros.
#![tactic(auto)]

pub mod store;

ghost use Rattle.std.specs.Prelude.{◌≡◌, ◌≤◌, length, take};

use std::io::Read;
use std::{io, mem};

// The most bytes of records that a program reads.
pub const MOST: usize = 65536;

// What stands in lent memory before a call.
pub const UNTOUCHED: u8 = 7;

// The first n of a list, as many as there are.
pub fn first<T>(list: &[T], n: usize) -> &[T]
    ensures { result.now ≡ take n list.now }
{
    list.get(..n).unwrap_or(list)
}

// Another value at a place, where that is in range. Answers the one that stood there, which puts it back.
pub fn put<T: Copy>(list: &mut [T], at: usize, value: T) -> T {
    match list.get_mut(at) {
        Some(old) => mem::replace(old, value),
        None => value,
    }
}

// The records that are not read yet.
#[derive(Drop)]
pub struct Records<'a> {
    rest: &'a [u8],
}

impl<'a> Records<'a> {
    // How many bytes are left.
    pub fn len(&self) -> usize
        ensures { result ≡ length self.now.rest.now }
    {
        self.rest.len()
    }

    // No record follows: what is left is not read.
    pub fn end(&mut self) {
        self.rest = &[];
    }

    // n bytes, as many as there are.
    pub fn part(&mut self, n: usize) -> &'a [u8]
        ensures { length result.now ≤ n }
    {
        let (part, rest) = self.rest.split_at(n.min(self.rest.len()));
        self.rest = rest;
        part
    }

    // N bytes.
    pub fn array<const N: usize>(&mut self) -> [u8; N] {
        let part = self.part(N);
        let mut bytes = [0; N];
        bytes[..part.len()].copy_from_slice(part);
        bytes
    }

    // A byte.
    pub fn byte(&mut self) -> u8 {
        u8::from_le_bytes(self.array())
    }

    // A number of 2 bytes.
    pub fn half(&mut self) -> u16 {
        u16::from_le_bytes(self.array())
    }

    // A number of 4 bytes.
    pub fn word(&mut self) -> u32 {
        u32::from_le_bytes(self.array())
    }

    // A number of 8 bytes.
    pub fn long(&mut self) -> usize {
        usize::from_le_bytes(self.array())
    }

    // 1 byte length, bytes.
    pub fn name(&mut self) -> &'a [u8] {
        let n = self.byte();
        self.part(usize::from(n))
    }

    // 2 bytes length, bytes.
    pub fn text(&mut self) -> &'a [u8] {
        let n = self.half();
        self.part(usize::from(n))
    }
}

// Each record on standard input, read by f, until no byte is left. A record takes a byte or more.
pub fn each<F: FnMut(&mut Records) -> io::Result<()>>(rt: &impl Input, mut f: F) -> io::Result<()>
    requires { F.IsAlwaysCallable f }
{
    let mut space = [0; MOST];
    let n = io::copy(&mut rt.reader().take(MOST as u64), &mut &mut space[..])?;
    let mut records = Records {
        rest: first(&space, n as usize),
    };
    for _ in 0..n {
        if records.rest.is_empty() {
            return Ok(());
        }
        f(&mut records)?;
    }
    Ok(())
}
