// Names, and writing them.
ghost use Rattle.std.specs.Prelude.{List, [], ◌≡◌, ℕ};
ghost use Rattle.lent.specs.Memory.{Puts};
ghost use Rattle.lent.specs.Writer.{Writes};
ghost use Rattle.format.specs.Dump.{written, written_left};
ghost use Rattle.format.specs.Constants.{value_of};
ghost use Rattle.proto.specs.Constants.{read};
ghost use Rattle.debug_info.specs.Names.{or_nil, constant_name, global_of};
ghost use Rattle.debug_info.specs.Kind.{number};
ghost use Rattle.debug_info.specs.Known.{name_of, object_of};

use format::{Constant, Refusal, Span};
use lent::{Writer, write_whole};
use utf8::put_repaired;

// A name: ?, or where it stands in the text; a constant's is repaired as it is written. It does not hold the text: what is known of a record is made where
// there is none.
#[derive(Clone, Copy)]
pub enum Name {
    Unknown,
    Text(Span),
    Constant(Span),
}

// What a name is of.
#[derive(Clone, Copy, Debug, PartialEq, Eq)]
pub enum Kind {
    Local = 1,
    Global = 2,
    Field = 3,
    Upvalue = 4,
    Method = 5,
}

// Its number.
impl From<Kind> for u32 {
    ghost from_gives = { λ k n. n ≡ number k };

    fn from(k: Kind) -> u32 {
        k as u32
    }
}

// What is known of a register, where something is: a kind, and a name.
#[derive(Clone, Copy)]
pub struct Known {
    pub kind: Kind,
    pub name: Name,
}

// A constant's name: a string's, or ?.
pub fn constant_name(k: Option<Constant>) -> Name
    ensures { (text : List ℕ) → name_of text result ≡ constant_name (or_nil (read (value_of text) k)) }
{
    match k {
        Some(Constant::String(s)) => Name::Constant(s),
        _ => Name::Unknown,
    }
}

// The global that a constant names: nothing where it is no string.
pub fn global_of(k: Option<Constant>) -> Option<Known>
    ensures { (text : List ℕ) → object_of text result ≡ global_of (or_nil (read (value_of text) k)) }
{
    match k {
        Some(Constant::String(s)) => Some(Known {
            kind: Kind::Global,
            name: Name::Constant(s),
        }),
        _ => None,
    }
}

// Writes a name.
fn put_name(w: &mut Writer, text: &[u8], name: Name)
    ensures { Writes (name_of text.now name) w.old w.new }
{
    match name {
        Name::Unknown => w.put_bytes(b"?"),
        Name::Text(s) => w.put_bytes(s.of(text)),
        Name::Constant(s) => put_repaired(w, s.of(text)),
    }
}

// A name from the start of out. Answers how many bytes it has.
fn put_from_start(text: &[u8], name: Name, out: &mut [u8]) -> usize
    ensures { Puts (name_of text.now name) 0 out.old result out.new }
{
    let mut w = Writer { out, at: 0 };
    put_name(&mut w, text, name);
    w.at
}

// How many bytes a name has: those that are written where there is no space.
pub fn name_len(text: &[u8], name: Name) -> usize
    ensures { Puts (name_of text.now name) 0 [] result [] }
{
    put_from_start(text, name, &mut [])
}

// Writes a name from the start of out where it fits, and answers its length. Refused by 11.
pub fn write_name(text: &[u8], name: Name, out: &mut [u8]) -> Result<usize, Refusal>
    ensures { written_left result out.new ≡ written (name_of text.now name) out.old }
{
    write_whole(out, |o| put_from_start(text, name, o)).ok_or(Refusal::TooLittleOutput)
}
