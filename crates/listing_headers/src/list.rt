// The lists of a full listing (listing.rs: format_constants, format_locals, format_upvalues).
ghost use Rattle.std.specs.Prelude.{◌≡◌, ℕ, List, length};
ghost use Rattle.lent.specs.Writer.{Writes};
ghost use Rattle.format.specs.Tree.{Constant, Local};
ghost use Rattle.format.specs.Store.{Piece, list, string, constant_piece, local_piece};
ghost use Rattle.instructions.specs.OpCodes.{ascii};
ghost use Rattle.listing_operands.specs.Shown.{Shows};
ghost use Rattle.listing_headers.specs.Tables.{title, raised, tabbed, format_constant_at, format_local_at, format_upvalue_at, format_list};

use format::{Constants, Locals, Names, StoredItem};
use lent::Writer;
use listing_comments::{put_address, put_u32};
use listing_lines::put_index;
use listing_operands::constant::put_constant;
use proto::constant::constant_at;
use proto::debug::local_at;
use proto::store::Store;
use proto::walk::{item_of, word_at};

// What a list of a full listing holds: a line for each item. proto, load_function and dump have an Item of their own, and Value and piece stand here beside
// StoredItem's: a ghost member's type cannot name a member of a supertrait (only a law's can), and line is of Value.
pub trait Item: StoredItem {
    ghost Value: { Type 0 };

    ghost piece: { Value → Piece };

    ghost line: { ℕ → Value → List ℕ };

    ghost noun: { List ℕ };

    // Their name. No const as WORDS is: a const is proved equal to the ghost of its name, and of a slice that would be its address too.
    fn noun() -> &'static [u8]
        ensures { result.now ≡ noun };

    // The line of item i, which stands at a place.
    fn put_line(w: &mut Writer, store: Store, place: usize, i: u32)
        ensures { Shows store.entry place piece (line i) w.old w.new };

    ghost size: { (v : Value) (to : ℕ) → length ((piece v).words to) ≡ Self.WORDS };
}

// Constants, counted from 1.
impl Item for Constants {
    ghost Value = { Constant };

    ghost piece = { constant_piece };

    ghost line = { format_constant_at };

    ghost noun = { ascii "constants" };

    fn noun() -> &'static [u8] {
        b"constants"
    }

    fn put_line(w: &mut Writer, store: Store, place: usize, i: u32) {
        put_index(w, u64::from(i) + 1);
        put_constant::<false>(w, store.text, constant_at(store.words, place));
        w.put_byte(b'\n');
    }

    ghost size = { ⟦<Constants as StoredItem>⟧.size };
}

// Locals, counted from 0.
impl Item for Locals {
    ghost Value = { Local };

    ghost piece = { local_piece };

    ghost line = { format_local_at };

    ghost noun = { ascii "locals" };

    fn noun() -> &'static [u8] {
        b"locals"
    }

    fn put_line(w: &mut Writer, store: Store, place: usize, i: u32) {
        let v = local_at(store.words, place);
        put_index(w, u64::from(i));
        w.put_bytes(v.name.of(store.text));
        put_raised(w, v.start);
        put_raised(w, v.end);
        w.put_byte(b'\n');
    }

    ghost size = { ⟦<Locals as StoredItem>⟧.size };
}

// Names of upvalues, counted from 0.
impl Item for Names {
    ghost Value = { List ℕ };

    ghost piece = { string };

    ghost line = { format_upvalue_at };

    ghost noun = { ascii "upvalues" };

    fn noun() -> &'static [u8] {
        b"upvalues"
    }

    fn put_line(w: &mut Writer, store: Store, place: usize, i: u32) {
        put_index(w, u64::from(i));
        w.put_bytes(store.string_at(place));
        w.put_byte(b'\n');
    }

    ghost size = { ⟦<Names as StoredItem>⟧.size };
}

// What a list holds, how many, and whose it is.
fn put_title(w: &mut Writer, what: &[u8], n: u32, number: usize)
    ensures { Writes (title what.now n number) w.old w.new }
{
    w.put_bytes(what);
    w.put_bytes(b" (");
    put_u32(w, n);
    w.put_bytes(b") for ");
    put_address(w, number);
    w.put_bytes(b":\n");
}

// A tab, and a pc raised by one, which wraps.
#[tactic(auto, using(lent::proofs::Writers::writes_first))]
fn put_raised(w: &mut Writer, pc: u32)
    ensures { Writes (tabbed (raised pc)) w.old w.new }
{
    w.put_byte(b'\t');
    put_u32(w, pc.wrapping_add(1));
}

// A list: its title, and a line for each item.
#[tactic(auto, using(crate::proofs::Enumerates::list_turn))]
pub fn put_list<T: Item>(w: &mut Writer, store: Store, place: usize, number: usize)
    ensures { Shows store.entry place (list T.Item.piece) (λ l. format_list T.noun T.line l number) w.old w.new }
{
    let n = word_at(store.words, place);
    put_title(w, T::noun(), n, number);
    for i in 0..n {
        T::put_line(w, store, item_of::<T>(store.words, place, i), i);
    }
}
