// The answers of the calls that read and write chunks: the refusal, 0 where there is none, then numbers, all 0 on refusal,
// as C reads them.
// What the calls answer and leave in lent memory is defined in specs/. Beside the answers stands what the calls share: a part of a list, a constant, its tag, the kinds of
// items and how many words each takes, the limits, the width of sizes, the halves of a number, and the test of a chunk name.
#![tactic(auto)]

ghost use Rattle.std.specs.Prelude.{◌+◌, ◌*◌, ◌≡◌, ◌≤◌, ◌^◌, ◌/◌, ◌%◌, take, drop, length, List, ℕ, refl};
ghost use Rattle.format.specs.Tree.{Local};
ghost use Rattle.format.specs.Tree.{Constant as Value};
ghost use Rattle.format.specs.Store.{Piece, word, string, constant_piece, local_piece};
ghost use Rattle.format.specs.Read.{limit, width_of};
ghost use Rattle.format.specs.Valid.{depth, most};
ghost use Rattle.format.specs.Dump.{write_left, written_left, name_refusal};
ghost use Rattle.format.specs.Refusal.{number, RefusedBy};
ghost use Rattle.format.specs.Undump.{undumped_result};
ghost use Rattle.format.specs.Tag.{TagOf};

// Why a call is refused: by the number that callers see.
#[derive(Clone, Copy, Debug, PartialEq, Eq)]
pub enum Refusal {
    BadName = 1,
    Truncated = 2,
    BadSignature = 3,
    BadFormat = 4,
    BadTag = 5,
    TooManyItems = 6,
    TooDeep = 7,
    TooFewWords = 8,
    TooLittleText = 9,
    BadStore = 10,
    TooLittleOutput = 11,
    NoFunction = 12,
    BadPc = 13,
    BadRegister = 14,
    NotAsMeasured = 15,
}

// Its number.
impl From<Refusal> for u32 {
    ghost from_gives = { λ e n. n ≡ number e };

    fn from(e: Refusal) -> u32 {
        e as u32
    }
}

// The tag of a constant, a byte in a chunk and a word in a store: lua.h's LUA_TNIL, LUA_TBOOLEAN, LUA_TNUMBER, LUA_TSTRING.
#[derive(Clone, Copy, PartialEq, Eq)]
pub enum Tag {
    Nil = 0,
    Bool = 1,
    Num = 3,
    String = 4,
}

// Any other number is refused by 5.
impl TryFrom<u32> for Tag {
    type Error = Refusal;

    ghost try_from_gives = { TagOf };

    fn try_from(n: u32) -> Result<Tag, Refusal> {
        match n {
            0 => Ok(Tag::Nil),
            1 => Ok(Tag::Bool),
            3 => Ok(Tag::Num),
            4 => Ok(Tag::String),
            _ => Err(Refusal::BadTag),
        }
    }
}

// How many bytes the chunk's sizes take, 4 or 8, the words and the text bytes that a tree takes, and the bytes of the chunk that were read.
#[repr(C)]
#[derive(Clone, Copy)]
pub struct Undumped {
    pub refusal: u32,
    pub width: u32,
    pub words: usize,
    pub text: usize,
    pub read: usize,
}

// What a chunk needs to be stored: the words and the text bytes of its tree, and the bytes of it that are read.
#[derive(Clone, Copy, PartialEq)]
pub struct Needs {
    pub words: usize,
    pub text: usize,
    pub read: usize,
}

// A chunk that was measured: how many bytes its sizes take, and what it needs.
#[derive(Clone, Copy)]
pub struct MeasuredChunk {
    pub width: u32,
    pub needs: Needs,
}

// The bytes that were written.
#[repr(C)]
#[derive(Clone, Copy)]
pub struct Written {
    pub refusal: u32,
    pub len: usize,
}

// What a call that writes answers: the bytes that it wrote, or why it is refused.
impl From<Result<usize, Refusal>> for Written {
    ghost from_gives = { λ r w. (out : List ℕ) → write_left w out ≡ written_left r out };

    fn from(r: Result<usize, Refusal>) -> Written {
        match r {
            Ok(len) => Written { refusal: 0, len },
            Err(e) => Written {
                refusal: e.into(),
                len: 0,
            },
        }
    }
}

// What a call that reads a chunk answers: what it measured, or why it is refused.
impl From<Result<MeasuredChunk, Refusal>> for Undumped {
    ghost from_gives = { λ r u. u ≡ undumped_result r };

    fn from(r: Result<MeasuredChunk, Refusal>) -> Undumped {
        match r {
            Ok(m) => Undumped {
                refusal: 0,
                width: m.width,
                words: m.needs.words,
                text: m.needs.text,
                read: m.needs.read,
            },
            Err(e) => Undumped {
                refusal: e.into(),
                width: 0,
                words: 0,
                text: 0,
                read: 0,
            },
        }
    }
}

// A part of a list, by its place and its length.
#[derive(Clone, Copy, Default)]
pub struct Span {
    pub start: usize,
    pub len: usize,
}

impl Span {
    // The part, as far as the list goes.
    pub fn of<T>(self, list: &[T]) -> &[T]
        ensures { result.now ≡ take self.len (drop self.start list.now) }
    {
        let start = self.start.min(list.len());
        let len = self.len.min(list.len() - start);
        &list[start..start + len]
    }
}

// A constant: a number by its halves, a string by where it stands in the bytes that hold it.
#[derive(Clone, Copy)]
pub enum Constant {
    Nil,
    Bool(bool),
    Num(u32, u32),
    String(Span),
}

// Three kinds of items, Constants, Locals and Names: what the lists of a function hold that are read, checked, written and listed item by item. Each of the
// traits of items is of these.
pub struct Constants;

pub struct Locals;

// The upvalues' names.
pub struct Names;

// A fourth kind, the items of the code and of the lines. StoredItem alone is implemented for it: these lists are read, checked and written whole.
pub struct Ints;

// How an item of a list is stored: as a piece of WORDS words.
pub trait StoredItem {
    ghost Value: { Type 0 };

    ghost piece: { Value → Piece };

    ghost WORDS: { ℕ };

    const WORDS: u32;

    ghost size: { (v : Value) (to : ℕ) → length ((piece v).words to) ≡ WORDS };
}

impl StoredItem for Constants {
    ghost Value = { Value };

    ghost piece = { constant_piece };

    ghost WORDS = { 3 };

    const WORDS: u32 = 3;

    ghost size = { elim [ Value.nil ↦ λ to. refl | Value.bool b ↦ λ to. refl | Value.num high low ↦ λ to. refl | Value.str s ↦ λ to. refl ] };
}

impl StoredItem for Locals {
    ghost Value = { Local };

    ghost piece = { local_piece };

    ghost WORDS = { 4 };

    const WORDS: u32 = 4;

    ghost size = { λ v to. refl };
}

impl StoredItem for Names {
    ghost Value = { List ℕ };

    ghost piece = { string };

    ghost WORDS = { 2 };

    const WORDS: u32 = 2;

    ghost size = { λ v to. refl };
}

impl StoredItem for Ints {
    ghost Value = { ℕ };

    ghost piece = { word };

    ghost WORDS = { 1 };

    const WORDS: u32 = 1;

    ghost size = { λ v to. refl };
}

// The most functions nested, the root being 1.
pub const DEPTH: u32 = 200;

// The most items of a list.
pub const LIMIT: u32 = 65535;

// The most words, the most text bytes, and the most bytes of a chunk name.
pub const MOST: usize = 16777216;

// The limits are the definitions'.
fn limits()
    ensures { (DEPTH ≡ depth) × (LIMIT ≡ limit) × (MOST ≡ most) }
{}

// How many bytes a size takes: four where size_4 is told, else eight. A bool, as the C interface has it.
pub fn width(size_4: bool) -> u8
    ensures { (result ≡ width_of size_4) × (result ≤ 8) }
{
    if size_4 { 4 } else { 8 }
}

// The low 32 bits of a number: any below 2^32 keeps its value. By the remainder, which takes no instruction; try_from would test.
pub fn low(n: usize) -> u32
    ensures { result ≡ n % 2 ^ 32 }
{
    (n % 4294967296) as u32
}

// The halves of a number of 64 bits, the high one first.
pub fn halves(n: u64) -> (u32, u32)
    ensures { (result.0 ≡ n / 2 ^ 32) × (result.1 ≡ n % 2 ^ 32) }
{
    ((n >> 32) as u32, low(n as usize))
}

// A number of 64 bits by its halves, the high one first.
pub fn joined(high: u32, low: u32) -> u64
    ensures { result ≡ low + 4294967296 * high }
{
    u64::from(low) + 4294967296 * u64::from(high)
}

// Whether a chunk name is UTF-8 and not too long: refused by 1.
pub fn check_name(name: &[u8]) -> Result<(), Refusal>
    ensures { RefusedBy (name_refusal name.now) result }
{
    if utf8::is_utf8(name) && name.len() <= MOST {
        Ok(())
    } else {
        Err(Refusal::BadName)
    }
}
