// The header of a function (listing.rs: display_source, format_header).
ghost use Rattle.std.specs.Prelude.{List, ◌≡◌, ℕ, ◌++◌};
ghost use Rattle.lent.specs.Writer.{Writes};
ghost use Rattle.digits.specs.Digits.{decimal};
ghost use Rattle.instructions.specs.OpCodes.{ascii};
ghost use Rattle.format.specs.Tree.{Parts, Functions};
ghost use Rattle.listing_headers.specs.Headed.{HeaderOf};
ghost use Rattle.listing_headers.specs.Header.{display_source, plural, vararg, kind_of, source_lines, code_size, format_params, header_kind, header_counts, format_header};

use digits::text::put_decimal;
use lent::Writer;
use listing_comments::{put_address, put_u32};
use proto::head::Head;
use proto::lists::Lists;
use proto::walk::word_at;

// A source without a leading @.
fn display_source(source: &[u8]) -> &[u8]
    ensures { result.now ≡ display_source source.now }
{
    match source {
        [b'@', rest @ ..] => rest,
        _ => source,
    }
}

// A noun, with s but for one.
#[tactic(auto, using(lent::proofs::Writers::writes_then))]
fn put_noun(w: &mut Writer, noun: &[u8], n: u32)
    ensures { Writes (noun.now ++ plural n) w.old w.new }
{
    w.put_bytes(noun);
    if n != 1 {
        w.put_byte(b's');
    }
}

// n of what a noun names.
#[tactic(auto, using(lent::proofs::Writers::writes_then))]
fn put_amount(w: &mut Writer, n: u32, noun: &[u8])
    ensures { Writes (decimal n ++ (noun.now ++ plural n)) w.old w.new }
{
    put_u32(w, n);
    put_noun(w, noun, n);
}

// The same behind other amounts.
fn put_and_amount(w: &mut Writer, n: u32, noun: &[u8])
    ensures { Writes (ascii ", " ++ (decimal n ++ (noun.now ++ plural n))) w.old w.new }
{
    w.put_bytes(b", ");
    put_amount(w, n, noun);
}

// main or function.
fn put_kind_of(w: &mut Writer, line: u32)
    ensures { Writes (kind_of line) w.old w.new }
{
    if line == 0 {
        w.put_bytes(b"main");
    } else {
        w.put_bytes(b"function");
    }
}

// The source and the defined lines.
fn put_source_lines(w: &mut Writer, source: &[u8], start: u32, end: u32)
    ensures { Writes (source_lines source.now start end) w.old w.new }
{
    w.put_bytes(b" <");
    w.put_bytes(display_source(source));
    w.put_byte(b':');
    put_u32(w, start);
    w.put_byte(b',');
    put_u32(w, end);
    w.put_byte(b'>');
}

// The code words, the bytes, and the function's number.
fn put_code_size(w: &mut Writer, n: u32, number: usize)
    ensures { Writes (code_size n number) w.old w.new }
{
    w.put_bytes(b" (");
    put_amount(w, n, b" instruction");
    w.put_bytes(b", ");
    put_decimal(w, u64::from(n) * 4);
    w.put_bytes(b" bytes at ");
    put_address(w, number);
    w.put_bytes(b")\n");
}

// + where is_vararg has the bit worth 2.
fn put_vararg(w: &mut Writer, bits: u32)
    ensures { Writes (vararg bits) w.old w.new }
{
    if bits / 2 % 2 == 1 {
        w.put_byte(b'+');
    }
}

// The params, with + for vararg.
fn put_params(w: &mut Writer, n: u32, bits: u32)
    ensures { Writes (format_params n bits) w.old w.new }
{
    put_u32(w, n);
    put_vararg(w, bits);
    put_noun(w, b" param", n);
}

// What the header of a function is made of: its numbers and its lists.
#[derive(Clone, Copy)]
pub struct Header<'a> {
    pub head: Head,
    pub lists: Lists<'a>,
}

impl Header<'_> {
    // Line one.
    fn put_kind(self, w: &mut Writer, source: &[u8], number: usize)
        ensures { (text : List ℕ) (p : Parts) (fs : Functions) → HeaderOf text self.entry p fs → Writes (header_kind p source.now number) w.old w.new }
    {
        put_kind_of(w, self.head.line_defined);
        put_source_lines(
            w,
            source,
            self.head.line_defined,
            self.head.last_line_defined,
        );
        put_code_size(w, word_at(self.lists.store.words, self.lists.code), number);
    }

    // Line two.
    fn put_counts(self, w: &mut Writer)
        ensures { (text : List ℕ) (p : Parts) (fs : Functions) → HeaderOf text self.entry p fs → Writes (header_counts p fs) w.old w.new }
    {
        let words = self.lists.store.words;
        put_params(w, self.head.num_params, self.head.is_vararg);
        put_and_amount(w, self.head.max_stack_size, b" slot");
        put_and_amount(w, self.head.num_upvalues, b" upvalue");
        put_and_amount(w, word_at(words, self.lists.locals), b" local");
        put_and_amount(w, word_at(words, self.lists.constants), b" constant");
        put_and_amount(w, word_at(words, self.lists.functions), b" function");
        w.put_byte(b'\n');
    }

    // The header.
    pub fn put(self, w: &mut Writer, source: &[u8], number: usize)
        ensures { (text : List ℕ) (p : Parts) (fs : Functions) → HeaderOf text self.entry p fs → Writes (format_header p fs source.now number) w.old w.new }
    {
        self.put_kind(w, source, number);
        self.put_counts(w);
    }
}
