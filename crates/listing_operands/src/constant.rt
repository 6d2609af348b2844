// Constants (listing.rs: format_constant, format_constant_raw).
ghost use Rattle.std.proofs.Math.Option.{some};
ghost use Rattle.lent.specs.Writer.{Writes};
ghost use Rattle.format.specs.Store.{list, constant_piece};
ghost use Rattle.format.specs.Constants.{value_of};
ghost use Rattle.proto.specs.Walk.{item};
ghost use Rattle.listing_operands.specs.Operands.{constant_text};
ghost use Rattle.listing_operands.specs.Shown.{Shows};

use digits::text::{put_number, put_quoted};
use format::{Constant, joined};
use lent::Writer;
use proto::constant::constant_of;
use proto::lists::Lists;
use utf8::put_repaired;

// A constant; where RAW, a string as it is.
pub fn put_constant<const RAW: bool>(w: &mut Writer, text: &[u8], k: Constant)
    ensures { Writes (constant_text RAW (some (value_of text.now k))) w.old w.new }
{
    match k {
        Constant::Nil => w.put_bytes(b"nil"),
        Constant::Bool(true) => w.put_bytes(b"true"),
        Constant::Bool(false) => w.put_bytes(b"false"),
        Constant::Num(high, low) => put_number(w, joined(high, low)),
        Constant::String(s) if RAW => put_repaired(w, s.of(text)),
        Constant::String(s) => put_quoted(w, s.of(text)),
    }
}

// The constant of an index, as text.
pub fn format_constant<const RAW: bool>(w: &mut Writer, lists: Lists, idx: u32)
    ensures { Shows lists.entry.store lists.entry.constants (list constant_piece) (λ l. constant_text RAW (item l idx)) w.old w.new }
{
    match constant_of(lists.store.words, lists.constants, idx) {
        None => w.put_bytes(b"(invalid constant)"),
        Some(k) => put_constant::<RAW>(w, lists.store.text, k),
    }
}
