// Writing output: words and bytes, and the lines that the programs write for an answer.
#![tactic(auto)]

use format::{Undumped, Written};
use std::fmt::Radix;
use std::io;
use std::io::Write;

// Numbers in hexadecimal, of so many digits or more, a blank before each.
fn all<T: Radix + Copy>(numbers: &[T], digits: usize, to: &mut impl Write) -> io::Result<()> {
    for n in numbers {
        write!(to, " {n:0digits$x}")?;
    }
    Ok(())
}

// All words in hexadecimal, a blank before each.
pub fn all_words(words: &[u32], to: &mut impl Write) -> io::Result<()> {
    all(words, 1, to)
}

// All bytes in hexadecimal, a blank before each.
pub fn all_text(text: &[u8], to: &mut impl Write) -> io::Result<()> {
    all(text, 2, to)
}

// The numbers of an answer of measure or store.
pub fn answer(u: Undumped, to: &mut impl Write) -> io::Result<()> {
    write!(
        to,
        "{} {} {} {} {} ",
        u.refusal, u.width, u.words, u.text, u.read
    )
}

// What store answered and left: its numbers, all words lent, all text bytes lent.
pub fn undumped(u: Undumped, words: &[u32], text: &[u8], to: &mut impl Write) -> io::Result<()> {
    answer(u, to)?;
    to.write_all(b":")?;
    all_words(words, to)?;
    to.write_all(b" :")?;
    all_text(text, to)?;
    to.write_all(b"\n")
}

// What a call that writes answered and left: its numbers, all bytes lent.
pub fn written(w: Written, out: &[u8], to: &mut impl Write) -> io::Result<()> {
    write!(to, "{} {} :", w.refusal, w.len)?;
    all_text(out, to)?;
    to.write_all(b"\n")
}
