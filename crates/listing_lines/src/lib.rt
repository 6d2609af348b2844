// One instruction's line of a listing (listing.rs: the body of format_code's loop). What is past the end is not written. What stands in front of
// the comment is stored over (out, at) where START bytes are left, with no test of each byte; listing_operands' fit.rt has what a writer takes.
#![tactic(auto)]

ghost use Rattle.std.specs.Prelude.{ℕ, ◌+◌, ◌-◌, ◌^◌, ◌≤◌, ◌<◌, List, ◌≡◌, length};
ghost use Rattle.digits.specs.Room.{PutsWithin};
ghost use Rattle.lent.specs.Writer.{Writes};
ghost use Rattle.format.specs.Tree.{Parts, Functions};
ghost use Rattle.format.specs.Store.{ints};
ghost use Rattle.proto.specs.Walk.{item};
ghost use Rattle.instructions.specs.OpCodes.{opcode, op_name, padded};
ghost use Rattle.listing_operands.specs.Fit.{room, Fits};
ghost use Rattle.listing_lines.specs.Line.{index, format_line, start_of, format_instruction};
ghost use Rattle.listing_lines.specs.Shown.{line_of};
ghost use Rattle.proto.specs.Lists.{StandsIn, ListsAt};
ghost use Rattle.listing_comments.specs.Shown.{ChildIs};

use digits::text::put_decimal;
use instructions::Instruction;
use lent::Writer;
use listing_comments::format_comment;
use listing_operands::fit::{fit_byte, fit_decimal};
use listing_operands::operand::fit_operands;
use proto::lists::Lists;
use proto::walk::ints_at;

// The most bytes that stand in front of a comment.
const START: usize = 69;

// A tab, an index and a tab.
#[tactic(auto, using(lent::proofs::Writers::writes_first, lent::proofs::Writers::writes_then))]
pub fn put_index(w: &mut Writer, n: u64)
    ensures { Writes (index n) w.old w.new }
{
    w.put_byte(b'\t');
    put_decimal(w, n);
    w.put_byte(b'\t');
}

// The line of the instruction at pc, where it is known.
fn line_at(lists: Lists, pc: u32) -> Option<u32>
    ensures { (l : List ℕ) → StandsIn lists.entry.store lists.entry.lines (ints l) → line_of result ≡ item l pc }
{
    ints_at(lists.store.words, lists.lines)
        .get(pc as usize)
        .copied()
}

// A line, which fits.
fn fit_line<const STORED: bool>(line: Option<u32>, out: &mut [u8], at: usize) -> usize
    requires { at + 12 ≤ room STORED out.old }
    ensures { Fits STORED (format_line (line_of line)) 12 at out.old result out.new }
{
    let a = fit_byte::<STORED>(out, at, b'[');
    let b = match line {
        Some(n) => fit_decimal::<STORED>(out, a, n),
        None => fit_byte::<STORED>(out, a, b'-'),
    };
    fit_byte::<STORED>(out, b, b']')
}

// An opcode's name, padded to 9, which fits.
#[tactic(auto, using(lent::proofs::Writes::put_stored, lent::proofs::Writes::sets_part))]
fn store_name(op: u8, out: &mut [u8], at: usize) -> usize
    requires { at + 9 ≤ length out.old }
    ensures { PutsWithin (padded (op_name op)) 9 at out.old result out.new }
{
    lent::copy(&mut out[at..at + 9], &instructions::name(op));
    at + 9
}

// The same, stored or only counted.
#[tactic(auto, using(crate::proofs::Lines::name_width, lent::proofs::Writes::put_lost), unfolding(listing_operands::specs::Fit::room))]
fn fit_name<const STORED: bool>(op: u8, out: &mut [u8], at: usize) -> usize
    requires { at + 9 ≤ room STORED out.old }
    ensures { Fits STORED (padded (op_name op)) 9 at out.old result out.new }
{
    if STORED {
        store_name(op, out, at)
    } else {
        at + 9
    }
}

// What stands in front of the comment, which fits. n is the index, counted from 1.
fn fit_start<const STORED: bool>(
    line: Option<u32>,
    n: u32,
    i: Instruction,
    out: &mut [u8],
    at: usize,
) -> usize
    requires { at + START ≤ room STORED out.old }
    ensures { Fits STORED (start_of (line_of line) (opcode i.0) n i.0) START at out.old result out.new }
{
    let op = i.opcode();
    let a = fit_byte::<STORED>(out, at, b'\t');
    let b = fit_decimal::<STORED>(out, a, n);
    let c = fit_byte::<STORED>(out, b, b'\t');
    let d = fit_line::<STORED>(line, out, c);
    let e = fit_byte::<STORED>(out, d, b'\t');
    let f = fit_name::<STORED>(op, out, e);
    let g = fit_byte::<STORED>(out, f, b'\t');
    fit_operands::<STORED>(op, i, out, g)
}

// What stands in front of the comment. Past the end it is only counted. Where fewer than START bytes are left it is stored aside first, and of that is
// written what fits.
#[tactic(auto, using(lent::proofs::Writes::put_lost, digits::proofs::Rooms::fit_written, listing_operands::proofs::Fits::counted_length), unfolding(listing_operands::specs::Fit::room))]
fn format_start(w: &mut Writer, line: Option<u32>, n: u32, i: Instruction)
    ensures { Writes (start_of (line_of line) (opcode i.0) n i.0) w.old w.new }
{
    if w.out.len() <= w.at {
        w.at = w
            .at
            .saturating_add(fit_start::<false>(line, n, i, &mut [], 0));
    } else if w.out.len() - w.at < START {
        let mut all = [0u8; START];
        let end = fit_start::<true>(line, n, i, &mut all, 0);
        w.put_bytes(&all[..end]);
    } else {
        w.at = fit_start::<true>(line, n, i, w.out, w.at);
    }
}

// The line of instruction i at pc. child is the number of the function that a CLOSURE makes, where there is one.
pub fn format_instruction(
    w: &mut Writer,
    lists: Lists,
    child: Option<usize>,
    pc: u32,
    i: Instruction,
)
    requires { pc < 2 ^ 32 - 1 }
    ensures { (p : Parts) (fs : Functions) (number : ℕ) → ListsAt lists.entry p fs → ChildIs fs number (opcode i.0) i.0 child → Writes (format_instruction p fs number pc i.0) w.old w.new }
{
    let line = line_at(lists, pc);
    format_start(w, line, pc + 1, i);
    format_comment(w, lists, child, pc, i.opcode(), i);
    w.put_byte(b'\n');
}
