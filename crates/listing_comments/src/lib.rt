// The comment of an instruction. Each call writes its text by a writer; what is past the end is not written.
#![tactic(auto)]

ghost use Rattle.std.specs.Prelude.{ℕ, ◌≡◌, ◌||◌, ltb, get_or, ◌++◌};
ghost use Rattle.lent.specs.Writer.{Writes};
ghost use Rattle.digits.specs.Digits.{decimal};
ghost use Rattle.format.specs.Tree.{Parts, Functions};
ghost use Rattle.format.specs.Store.{list, ints, string, constant_piece};
ghost use Rattle.proto.specs.Walk.{item};
ghost use Rattle.instructions.specs.Fields.{ISK, INDEXK};
ghost use Rattle.instructions.specs.OpCodes.{ascii, among};
ghost use Rattle.listing_operands.specs.Operands.{constant_text, format_constant};
ghost use Rattle.listing_comments.specs.Comment.{address, comment, when, upvalue_text, operand_constant, jump_target, format_set_list, format_comment, operand_ops};
ghost use Rattle.listing_operands.specs.Shown.{Shows};
ghost use Rattle.proto.specs.Lists.{ListsAt};
ghost use Rattle.listing_comments.specs.Shown.{ChildIs, closure_text};

use digits::text::put_decimal;
use instructions::{
    Instruction, MAXARG_SBX, OP_ADD, OP_CLOSURE, OP_DIV, OP_EQ, OP_GETGLOBAL, OP_GETTABLE,
    OP_GETUPVAL, OP_LE, OP_LOADK, OP_LT, OP_MOD, OP_MUL, OP_POW, OP_SELF, OP_SETGLOBAL, OP_SETLIST,
    OP_SETTABLE, OP_SETUPVAL, OP_SUB, OP_VARARG, index_k, is_jump, is_k,
};
use lent::Writer;
use listing_operands::constant::format_constant;
use listing_operands::operand::put_difference;
use proto::debug::upvalue_of;
use proto::lists::Lists;
use proto::walk::{ints_at, word_at};

// A number in base 10.
pub fn put_u32(w: &mut Writer, n: u32)
    ensures { Writes (decimal n) w.old w.new }
{
    put_decimal(w, u64::from(n));
}

// The number of a function, for its address.
#[tactic(auto, using(lent::proofs::Writers::writes_first))]
pub fn put_address(w: &mut Writer, n: usize)
    ensures { Writes (address n) w.old w.new }
{
    w.put_byte(b'#');
    put_decimal(w, n as u64);
}

// Where a comment begins.
fn put_comment(w: &mut Writer)
    ensures { Writes (ascii "\t; ") w.old w.new }
{
    w.put_bytes(b"\t; ");
}

// A constant; a global's name as it is, so RAW.
fn comment_constant<const RAW: bool>(w: &mut Writer, lists: Lists, idx: u32)
    ensures { Shows lists.entry.store lists.entry.constants (list constant_piece) (λ l. comment (constant_text RAW (item l idx))) w.old w.new }
{
    put_comment(w);
    format_constant::<RAW>(w, lists, idx);
}

// The name of an upvalue, - where there is none.
fn comment_upvalue(w: &mut Writer, lists: Lists, b: u32)
    ensures { Shows lists.entry.store lists.entry.upvalues (list string) (λ l. comment (upvalue_text (item l b))) w.old w.new }
{
    put_comment(w);
    match upvalue_of(lists.store.words, lists.upvalues, b) {
        None => w.put_byte(b'-'),
        Some(name) => w.put_bytes(name.of(lists.store.text)),
    }
}

// The key of a table, where it is a constant.
fn comment_key(w: &mut Writer, lists: Lists, c: u32)
    ensures { Shows lists.entry.store lists.entry.constants (list constant_piece) (λ l. when (ISK c) (comment (format_constant l (INDEXK c)))) w.old w.new }
{
    if is_k(c) {
        comment_constant::<false>(w, lists, index_k(c));
    }
}

// The constant of an operand, - for a register.
fn operand_constant(w: &mut Writer, lists: Lists, x: u32)
    ensures { Shows lists.entry.store lists.entry.constants (list constant_piece) (λ l. operand_constant l x) w.old w.new }
{
    if is_k(x) {
        format_constant::<false>(w, lists, index_k(x));
    } else {
        w.put_byte(b'-');
    }
}

// Two operands, where one is a constant.
fn comment_operands(w: &mut Writer, lists: Lists, b: u32, c: u32)
    ensures { Shows lists.entry.store lists.entry.constants (list constant_piece) (λ l. when (ISK b || ISK c) (comment (operand_constant l b ++ ascii " " ++ operand_constant l c))) w.old w.new }
{
    if is_k(b) || is_k(c) {
        put_comment(w);
        operand_constant(w, lists, b);
        w.put_byte(b' ');
        operand_constant(w, lists, c);
    }
}

// Where a jump goes.
fn comment_jump(w: &mut Writer, pc: u32, i: Instruction)
    ensures { Writes (comment (ascii "to " ++ jump_target pc i.0)) w.old w.new }
{
    put_comment(w);
    w.put_bytes(b"to ");
    let to = u64::from(i.bx()) + u64::from(pc) + 2;
    put_difference(w, to, u64::from(MAXARG_SBX));
}

// The number of the function that a CLOSURE makes, where there is such a function; where there is none, whatever child says.
#[tactic(auto, using(crate::proofs::Comments::comment_put))]
fn comment_closure(w: &mut Writer, lists: Lists, bx: u32, child: Option<usize>)
    ensures { Writes (when (ltb bx (get_or lists.entry.store.words.now lists.entry.functions 0)) (closure_text child)) w.old w.new }
{
    if word_at(lists.store.words, lists.functions) <= bx {
        return;
    }
    if let Some(n) = child {
        put_comment(w);
        put_address(w, n);
    }
}

// VARARG's.
fn comment_vararg(w: &mut Writer)
    ensures { Writes (comment (ascii "is_vararg")) w.old w.new }
{
    put_comment(w);
    w.put_bytes(b"is_vararg");
}

// The number of items that a SETLIST sets.
#[tactic(auto, using(crate::proofs::Comments::comment_put))]
fn comment_items(w: &mut Writer, n: u32)
    ensures { Writes (comment (decimal n)) w.old w.new }
{
    put_comment(w);
    put_u32(w, n);
}

// That is C, or else the word behind the instruction, where there is one.
fn comment_set_list(w: &mut Writer, lists: Lists, pc: u32, c: u32)
    ensures { Shows lists.entry.store lists.entry.code ints (λ l. format_set_list l pc c) w.old w.new }
{
    if c != 0 {
        comment_items(w, c);
    } else if let Some(&n) = ints_at(lists.store.words, lists.code).get(pc as usize + 1) {
        comment_items(w, n);
    }
}

// Whether an opcode has two operands that may be constants.
fn has_operands(op: u8) -> bool
    ensures { result ≡ among op operand_ops }
{
    matches!(
        op,
        OP_SETTABLE | OP_ADD | OP_SUB | OP_MUL | OP_DIV | OP_MOD | OP_POW | OP_EQ | OP_LT | OP_LE
    )
}

// The comment of the instruction at pc. child is the number of the function that a CLOSURE makes, where there is one.
// op stands beside i, as in the definitions and the Rust: the promise is of any opcode, and of i's alone it would be less.
#[tactic(auto, unfolding(crate::specs::Comment::format_comment, instructions::specs::OpCodes::is_jump))]
pub fn format_comment(
    w: &mut Writer,
    lists: Lists,
    child: Option<usize>,
    pc: u32,
    op: u8,
    i: Instruction,
)
    ensures { (p : Parts) (fs : Functions) (number : ℕ) → ListsAt lists.entry p fs → ChildIs fs number op i.0 child → Writes (format_comment op p fs number pc i.0) w.old w.new }
{
    let b = i.b();
    let c = i.c();
    let bx = i.bx();
    match op {
        OP_LOADK => comment_constant::<false>(w, lists, bx),
        OP_GETUPVAL | OP_SETUPVAL => comment_upvalue(w, lists, b),
        OP_GETGLOBAL | OP_SETGLOBAL => comment_constant::<true>(w, lists, bx),
        OP_GETTABLE | OP_SELF => comment_key(w, lists, c),
        OP_CLOSURE => comment_closure(w, lists, bx, child),
        OP_SETLIST => comment_set_list(w, lists, pc, c),
        OP_VARARG => comment_vararg(w),
        _ if has_operands(op) => comment_operands(w, lists, b, c),
        _ if is_jump(op) => comment_jump(w, pc, i),
        _ => {}
    }
}
