// The operands of an instruction. Those that fit go over (out, at), as fit.rt says. Each asks for its longest text, which Fits states too: no struct holds
// the room, since it is another number for each operand and each step takes some of it. 11 is - and ten digits.
ghost use Rattle.std.specs.Prelude.{◌+◌, ◌≤◌};
ghost use Rattle.lent.specs.Writer.{Writes};
ghost use Rattle.instructions.specs.Fields.{GETARG_Bx};
ghost use Rattle.listing_operands.specs.Fit.{room, Fits};
ghost use Rattle.listing_operands.specs.Operands.{difference, format_rk, format_arg, format_bx};
ghost use Rattle.listing_operands.specs.Operands.{operands_abc, operands_a_bx, operands_as_bx, format_operands};

use crate::fit::{fit_byte, fit_decimal, fit_negative};
use digits::text::{put_decimal, put_negative};
use instructions::{Instruction, MAXARG_SBX, OpArgMask, OpMode, index_k, is_k};
use lent::Writer;

// a - b, which may be negative.
pub fn put_difference(w: &mut Writer, a: u64, b: u64)
    ensures { Writes (difference a b) w.old w.new }
{
    if a < b {
        put_negative(w, b - a);
    } else {
        put_decimal(w, a - b);
    }
}

// a - b, which fits: put_difference over u32, as the fields are, and without its tests of the room.
fn fit_difference<const STORED: bool>(a: u32, b: u32, out: &mut [u8], at: usize) -> usize
    requires { at + 11 ≤ room STORED out.old }
    ensures { Fits STORED (difference a b) 11 at out.old result out.new }
{
    if a < b {
        fit_negative::<STORED>(out, at, b - a)
    } else {
        fit_decimal::<STORED>(out, at, a - b)
    }
}

// A register or a number; a constant is -1 - its index.
fn fit_rk<const STORED: bool>(x: u32, out: &mut [u8], at: usize) -> usize
    requires { at + 11 ≤ room STORED out.old }
    ensures { Fits STORED (format_rk x) 11 at out.old result out.new }
{
    if is_k(x) {
        fit_negative::<STORED>(out, at, 1 + index_k(x))
    } else {
        fit_decimal::<STORED>(out, at, x)
    }
}

// B or C of iABC, nothing where the opcode has none.
fn fit_arg<const STORED: bool>(mode: OpArgMask, x: u32, out: &mut [u8], at: usize) -> usize
    requires { at + 12 ≤ room STORED out.old }
    ensures { Fits STORED (format_arg mode x) 12 at out.old result out.new }
{
    if mode == OpArgMask::N {
        return at;
    }
    let a = fit_byte::<STORED>(out, at, b' ');
    fit_rk::<STORED>(x, out, a)
}

// Bx, a constant's index as -1 - index. It is apart from fit_rk: one function of a flag, an index and a number would have to ask that where the flag is
// set the index is below 2^32 - 1, which here follows from the size of Bx, and there from the mark that is cleared.
fn fit_bx<const STORED: bool>(mode: OpArgMask, i: Instruction, out: &mut [u8], at: usize) -> usize
    requires { at + 11 ≤ room STORED out.old }
    ensures { Fits STORED (format_bx mode (GETARG_Bx i.0)) 11 at out.old result out.new }
{
    let bx = i.bx();
    if mode == OpArgMask::K {
        fit_negative::<STORED>(out, at, 1 + bx)
    } else {
        fit_decimal::<STORED>(out, at, bx)
    }
}

// A, B and C.
fn fit_abc<const STORED: bool>(
    i: Instruction,
    b_mode: OpArgMask,
    c_mode: OpArgMask,
    out: &mut [u8],
    at: usize,
) -> usize
    requires { at + 34 ≤ room STORED out.old }
    ensures { Fits STORED (operands_abc b_mode c_mode i.0) 34 at out.old result out.new }
{
    let a = fit_decimal::<STORED>(out, at, i.a());
    let b = fit_arg::<STORED>(b_mode, i.b(), out, a);
    fit_arg::<STORED>(c_mode, i.c(), out, b)
}

// A and Bx.
fn fit_abx<const STORED: bool>(
    i: Instruction,
    b_mode: OpArgMask,
    out: &mut [u8],
    at: usize,
) -> usize
    requires { at + 22 ≤ room STORED out.old }
    ensures { Fits STORED (operands_a_bx b_mode i.0) 22 at out.old result out.new }
{
    let a = fit_decimal::<STORED>(out, at, i.a());
    let b = fit_byte::<STORED>(out, a, b' ');
    fit_bx::<STORED>(b_mode, i, out, b)
}

// A, but for JMP, and sBx. op stands beside i as in fit_operands.
fn fit_asbx<const STORED: bool>(op: u8, i: Instruction, out: &mut [u8], at: usize) -> usize
    requires { at + 22 ≤ room STORED out.old }
    ensures { Fits STORED (operands_as_bx op i.0) 22 at out.old result out.new }
{
    let bx = i.bx();
    if op == instructions::OP_JMP {
        return fit_difference::<STORED>(bx, MAXARG_SBX, out, at);
    }
    let a = fit_decimal::<STORED>(out, at, i.a());
    let b = fit_byte::<STORED>(out, a, b' ');
    fit_difference::<STORED>(bx, MAXARG_SBX, out, b)
}

// The operands of an instruction, which fit. op stands beside i, as in the definitions and the Rust: the promise is of any opcode, and of i's alone it
// would be less.
#[tactic(auto, using(crate::proofs::Fits::fits_more), unfolding(crate::specs::Operands::format_operands))]
pub fn fit_operands<const STORED: bool>(op: u8, i: Instruction, out: &mut [u8], at: usize) -> usize
    requires { at + 34 ≤ room STORED out.old }
    ensures { Fits STORED (format_operands op i.0) 34 at out.old result out.new }
{
    let m = instructions::op_modes(op);
    match m.mode {
        OpMode::IABC => fit_abc::<STORED>(i, m.b_mode, m.c_mode, out, at),
        OpMode::IABx => fit_abx::<STORED>(i, m.b_mode, out, at),
        OpMode::IAsBx => fit_asbx::<STORED>(op, i, out, at),
    }
}
