// Instructions of Lua 5.1 and their opcodes, as lopcodes.h and lopcodes.c have them.
#![tactic(auto)]

ghost use Rattle.std.specs.Prelude.{◌≡◌, [], ◌∷◌, map, get_or, ◌+◌, ◌≤◌, ◌<◌};
ghost use Rattle.instructions.specs.Fields.{field, placed, GETARG_A, GETARG_B, GETARG_C, GETARG_Bx, GETARG_sBx};
ghost use Rattle.instructions.specs.Fields.{CREATE_ABC, CREATE_ABx, CREATE_AsBx, ISK, INDEXK, RKASK};
ghost use Rattle.instructions.specs.OpCodes.{op_numbers, Row, opcodes, opcode, or_move, op_modes, op_name, padded};
ghost use Rattle.instructions.specs.OpCodes.{is_jump, next_is_c, modes_of_byte, mode_of, arg_of};

// A field: its size in bits, and its position, from the low bit.
#[derive(Clone, Copy)]
struct Field {
    pos: u32,
    size: u32,
    ghost fits: { (pos < 32) × (size < 32) × (size + pos ≤ 32) },
}

impl Field {
    // What i holds in the field.
    fn of(self, i: u32) -> u32
        ensures { result ≡ field self.pos self.size i }
    {
        (i >> self.pos) % (1 << self.size)
    }

    // The low bits of x, as many as the field has, moved to its position.
    #[tactic(auto, using(crate::proofs::Laws::placed_is))]
    fn put(self, x: u32) -> u32
        ensures { result ≡ placed self.pos self.size x }
    {
        x % (1 << self.size) << self.pos
    }
}

// Size and position of opcode arguments: POS_OP and SIZE_OP of lopcodes.h are OP.pos and OP.size. From the low bit: the opcode, A, C, B; Bx is C and B
// together.
const OP: Field = Field { pos: 0, size: 6 };

const A: Field = Field {
    pos: OP.pos + OP.size,
    size: 8,
};

const C: Field = Field {
    pos: A.pos + A.size,
    size: 9,
};

const B: Field = Field {
    pos: C.pos + C.size,
    size: 9,
};

const BX: Field = Field {
    pos: C.pos,
    size: C.size + B.size,
};

// Limits for opcode arguments. sBx is Bx less MAXARG_SBX.
pub const MAXARG_SBX: u32 = 131071;

pub const MAXARG_A: u32 = 255;

// An instruction word.
#[derive(Clone, Copy)]
pub struct Instruction(pub u32);

impl Instruction {
    // The opcode's number, MOVE's where the field holds no opcode.
    pub fn opcode(self) -> u8
        ensures { result ≡ opcode self.0 }
    {
        or_move(OP.of(self.0) as u8)
    }

    // Field A.
    pub fn a(self) -> u32
        ensures { result ≡ GETARG_A self.0 }
    {
        A.of(self.0)
    }

    // Field B.
    pub fn b(self) -> u32
        ensures { result ≡ GETARG_B self.0 }
    {
        B.of(self.0)
    }

    // Field C.
    pub fn c(self) -> u32
        ensures { result ≡ GETARG_C self.0 }
    {
        C.of(self.0)
    }

    // Field Bx.
    pub fn bx(self) -> u32
        ensures { result ≡ GETARG_Bx self.0 }
    {
        BX.of(self.0)
    }

    // Field sBx.
    pub fn sbx(self) -> i32
        ensures { result ≡ GETARG_sBx self.0 }
    {
        self.bx().cast_signed() - MAXARG_SBX.cast_signed()
    }

    // Whether the next word is no instruction, but this one's C: SETLIST, where C is 0.
    pub fn next_is_c(self) -> bool
        ensures { result ≡ next_is_c self.0 }
    {
        self.opcode() == OP_SETLIST && self.c() == 0
    }

    // The instruction of an opcode, A, B and C, each cut to its field's size.
    pub fn abc(op: u8, a: u32, b: u32, c: u32) -> Instruction
        ensures { result.0 ≡ CREATE_ABC op a b c }
    {
        Instruction(OP.put(u32::from(op)) + A.put(a) + B.put(b) + C.put(c))
    }

    // The instruction of an opcode, A and Bx, each cut to its field's size.
    pub fn a_bx(op: u8, a: u32, bx: u32) -> Instruction
        ensures { result.0 ≡ CREATE_ABx op a bx }
    {
        Instruction(OP.put(u32::from(op)) + A.put(a) + BX.put(bx))
    }

    // The instruction of an opcode, A and sBx. An sbx out of range wraps, as in a release build of the Rust; Bx takes the low bits of the sum, which
    // are the same where it wraps.
    pub fn a_sbx(op: u8, a: u32, sbx: i32) -> Instruction
        ensures { result.0 ≡ CREATE_AsBx op a sbx }
    {
        Instruction::a_bx(op, a, sbx.cast_unsigned().wrapping_add(MAXARG_SBX))
    }
}

// The bit of an RK operand that marks a constant.
pub const BITRK: u32 = 1 << (B.size - 1);

// The mark is tested, cleared and set by arithmetic, of which the compiler makes & and |: so written it is proved with no law of bits.

// Whether an RK operand is a constant.
pub fn is_k(x: u32) -> bool
    ensures { result ≡ ISK x }
{
    x / BITRK % 2 == 1
}

// The constant's index: the mark cleared.
pub fn index_k(rk: u32) -> u32
    ensures { result ≡ INDEXK rk }
{
    rk - rk / BITRK % 2 * BITRK
}

// A constant's index as an RK operand: the mark set.
pub fn rk_as_k(idx: u32) -> u32
    ensures { result ≡ RKASK idx }
{
    index_k(idx) + BITRK
}

// Invalid register that fits in 8 bits.
pub const NO_REG: u32 = MAXARG_A;

// The opcodes' numbers, as the format has them. Any u8 is asked about and has an answer, MOVE's where it is no opcode, which a narrower type would
// forbid.
pub const OP_MOVE: u8 = 0;

pub const OP_LOADK: u8 = 1;

pub const OP_LOADBOOL: u8 = 2;

pub const OP_LOADNIL: u8 = 3;

pub const OP_GETUPVAL: u8 = 4;

pub const OP_GETGLOBAL: u8 = 5;

pub const OP_GETTABLE: u8 = 6;

pub const OP_SETGLOBAL: u8 = 7;

pub const OP_SETUPVAL: u8 = 8;

pub const OP_SETTABLE: u8 = 9;

pub const OP_NEWTABLE: u8 = 10;

pub const OP_SELF: u8 = 11;

pub const OP_ADD: u8 = 12;

pub const OP_SUB: u8 = 13;

pub const OP_MUL: u8 = 14;

pub const OP_DIV: u8 = 15;

pub const OP_MOD: u8 = 16;

pub const OP_POW: u8 = 17;

pub const OP_UNM: u8 = 18;

pub const OP_NOT: u8 = 19;

pub const OP_LEN: u8 = 20;

pub const OP_CONCAT: u8 = 21;

pub const OP_JMP: u8 = 22;

pub const OP_EQ: u8 = 23;

pub const OP_LT: u8 = 24;

pub const OP_LE: u8 = 25;

pub const OP_TEST: u8 = 26;

pub const OP_TESTSET: u8 = 27;

pub const OP_CALL: u8 = 28;

pub const OP_TAILCALL: u8 = 29;

pub const OP_RETURN: u8 = 30;

pub const OP_FORLOOP: u8 = 31;

pub const OP_FORPREP: u8 = 32;

pub const OP_TFORLOOP: u8 = 33;

pub const OP_SETLIST: u8 = 34;

pub const OP_CLOSE: u8 = 35;

pub const OP_CLOSURE: u8 = 36;

pub const OP_VARARG: u8 = 37;

pub const NUM_OPCODES: u8 = 38;

// How many rows the two tables have.
const ROWS: usize = NUM_OPCODES as usize;

// The opcodes' numbers are the definitions'.
fn opcode_numbers()
    ensures { op_numbers ≡ OP_MOVE ∷ OP_LOADK ∷ OP_LOADBOOL ∷ OP_LOADNIL ∷ OP_GETUPVAL ∷ OP_GETGLOBAL ∷ OP_GETTABLE ∷ OP_SETGLOBAL
        ∷ OP_SETUPVAL ∷ OP_SETTABLE ∷ OP_NEWTABLE ∷ OP_SELF ∷ OP_ADD ∷ OP_SUB ∷ OP_MUL ∷ OP_DIV
        ∷ OP_MOD ∷ OP_POW ∷ OP_UNM ∷ OP_NOT ∷ OP_LEN ∷ OP_CONCAT ∷ OP_JMP ∷ OP_EQ
        ∷ OP_LT ∷ OP_LE ∷ OP_TEST ∷ OP_TESTSET ∷ OP_CALL ∷ OP_TAILCALL ∷ OP_RETURN ∷ OP_FORLOOP
        ∷ OP_FORPREP ∷ OP_TFORLOOP ∷ OP_SETLIST ∷ OP_CLOSE ∷ OP_CLOSURE ∷ OP_VARARG ∷ [] }
{}

// A number that is no opcode's stands for MOVE.
fn or_move(n: u8) -> u8
    ensures { result ≡ or_move n }
{
    if n < NUM_OPCODES { n } else { OP_MOVE }
}

// What a table has for an opcode, and for MOVE where the number is no opcode's.
// get_or wants a T to answer behind the table's end, where no number reaches: result serves.
fn row<T: Copy>(table: &[T; ROWS], op: u8) -> T
    ensures { result ≡ get_or table.now (or_move op) result }
{
    table[usize::from(or_move(op))]
}

// Whether an opcode jumps.
#[tactic(auto, unfolding(crate::specs::OpCodes::is_jump))]
pub fn is_jump(op: u8) -> bool
    ensures { result ≡ is_jump op }
{
    matches!(op, OP_JMP | OP_FORLOOP | OP_FORPREP)
}

// Basic instruction format.
#[derive(Clone, Copy, PartialEq, Eq, Debug)]
pub enum OpMode {
    IABC,
    IABx,
    IAsBx,
}

// What an operand is: not used, used, a register or a jump offset, a constant or register/constant.
#[derive(Clone, Copy, PartialEq, Eq, Debug)]
pub enum OpArgMask {
    N,
    U,
    R,
    K,
}

// An opcode's attributes.
#[derive(Clone, Copy)]
pub struct OpModes {
    pub mode: OpMode,
    pub b_mode: OpArgMask,
    pub c_mode: OpArgMask,
    pub is_test_mode: bool,
    pub sets_register_a: bool,
}

// The enums' numbers in a row of the table.
const N: u8 = OpArgMask::N as u8;

const U: u8 = OpArgMask::U as u8;

const R: u8 = OpArgMask::R as u8;

const K: u8 = OpArgMask::K as u8;

const ABC: u8 = OpMode::IABC as u8;

const ABX: u8 = OpMode::IABx as u8;

const ASBX: u8 = OpMode::IAsBx as u8;

// The attributes by opcode number: test, sets A, B, C, mode. They stay packed in bytes, since lopcodes.c packs them so, and a row reads as there.
const OP_MODES: [u8; ROWS] = [
    0 << 7 | 1 << 6 | R << 4 | N << 2 | ABC, // MOVE
    0 << 7 | 1 << 6 | K << 4 | N << 2 | ABX, // LOADK
    0 << 7 | 1 << 6 | U << 4 | U << 2 | ABC, // LOADBOOL
    0 << 7 | 1 << 6 | R << 4 | N << 2 | ABC, // LOADNIL
    0 << 7 | 1 << 6 | U << 4 | N << 2 | ABC, // GETUPVAL
    0 << 7 | 1 << 6 | K << 4 | N << 2 | ABX, // GETGLOBAL
    0 << 7 | 1 << 6 | R << 4 | K << 2 | ABC, // GETTABLE
    0 << 7 | 0 << 6 | K << 4 | N << 2 | ABX, // SETGLOBAL
    0 << 7 | 0 << 6 | U << 4 | N << 2 | ABC, // SETUPVAL
    0 << 7 | 0 << 6 | K << 4 | K << 2 | ABC, // SETTABLE
    0 << 7 | 1 << 6 | U << 4 | U << 2 | ABC, // NEWTABLE
    0 << 7 | 1 << 6 | R << 4 | K << 2 | ABC, // SELF
    0 << 7 | 1 << 6 | K << 4 | K << 2 | ABC, // ADD
    0 << 7 | 1 << 6 | K << 4 | K << 2 | ABC, // SUB
    0 << 7 | 1 << 6 | K << 4 | K << 2 | ABC, // MUL
    0 << 7 | 1 << 6 | K << 4 | K << 2 | ABC, // DIV
    0 << 7 | 1 << 6 | K << 4 | K << 2 | ABC, // MOD
    0 << 7 | 1 << 6 | K << 4 | K << 2 | ABC, // POW
    0 << 7 | 1 << 6 | R << 4 | N << 2 | ABC, // UNM
    0 << 7 | 1 << 6 | R << 4 | N << 2 | ABC, // NOT
    0 << 7 | 1 << 6 | R << 4 | N << 2 | ABC, // LEN
    0 << 7 | 1 << 6 | R << 4 | R << 2 | ABC, // CONCAT
    0 << 7 | 0 << 6 | R << 4 | N << 2 | ASBX, // JMP
    1 << 7 | 0 << 6 | K << 4 | K << 2 | ABC, // EQ
    1 << 7 | 0 << 6 | K << 4 | K << 2 | ABC, // LT
    1 << 7 | 0 << 6 | K << 4 | K << 2 | ABC, // LE
    1 << 7 | 1 << 6 | R << 4 | U << 2 | ABC, // TEST
    1 << 7 | 1 << 6 | R << 4 | U << 2 | ABC, // TESTSET
    0 << 7 | 1 << 6 | U << 4 | U << 2 | ABC, // CALL
    0 << 7 | 1 << 6 | U << 4 | U << 2 | ABC, // TAILCALL
    0 << 7 | 0 << 6 | U << 4 | N << 2 | ABC, // RETURN
    0 << 7 | 1 << 6 | R << 4 | N << 2 | ASBX, // FORLOOP
    0 << 7 | 1 << 6 | R << 4 | N << 2 | ASBX, // FORPREP
    0 << 7 | 0 << 6 | N << 4 | U << 2 | ABC, // TFORLOOP
    0 << 7 | 0 << 6 | U << 4 | U << 2 | ABC, // SETLIST
    0 << 7 | 0 << 6 | N << 4 | N << 2 | ABC, // CLOSE
    0 << 7 | 1 << 6 | U << 4 | N << 2 | ABX, // CLOSURE
    0 << 7 | 1 << 6 | U << 4 | U << 2 | ABC, // VARARG
];

// The table, with its rule. It is lent, so that a lookup copies no table.
#[tactic(auto, unfolding(crate::specs::OpCodes::opcodes))]
fn op_mode_bytes() -> &'static [u8; ROWS]
    ensures { map modes_of_byte result.now ≡ map (λ (o : Row). o.modes) opcodes }
{
    &OP_MODES
}

// The mode of a number, IAsBx's where it is no mode's.
impl From<u8> for OpMode {
    ghost from_gives = { λ n m. m ≡ mode_of n };

    fn from(n: u8) -> OpMode {
        match n {
            ABC => OpMode::IABC,
            ABX => OpMode::IABx,
            _ => OpMode::IAsBx,
        }
    }
}

// What an operand of a number is, K where the number is none's.
impl From<u8> for OpArgMask {
    ghost from_gives = { λ n a. a ≡ arg_of n };

    fn from(n: u8) -> OpArgMask {
        match n {
            N => OpArgMask::N,
            U => OpArgMask::U,
            R => OpArgMask::R,
            _ => OpArgMask::K,
        }
    }
}

// A row of the table taken apart. It is of 8 bits, and a field is of 32.
fn modes_of_byte(m: u8) -> OpModes
    ensures { result ≡ modes_of_byte m }
{
    let bits = u32::from(m);
    OpModes {
        mode: OpMode::from(Field { pos: 0, size: 2 }.of(bits) as u8),
        b_mode: OpArgMask::from(Field { pos: 4, size: 2 }.of(bits) as u8),
        c_mode: OpArgMask::from(Field { pos: 2, size: 2 }.of(bits) as u8),
        is_test_mode: Field { pos: 7, size: 1 }.of(bits) == 1,
        sets_register_a: Field { pos: 6, size: 1 }.of(bits) == 1,
    }
}

// The attributes of an opcode, MOVE's for a number that is no opcode's.
#[tactic(auto, using(crate::proofs::Table::looked_up))]
pub fn op_modes(op: u8) -> OpModes
    ensures { result ≡ op_modes op }
{
    modes_of_byte(row(op_mode_bytes(), op))
}

// The names by opcode number, padded with spaces.
const OP_NAMES: [[u8; 9]; ROWS] = [
    *b"MOVE     ",
    *b"LOADK    ",
    *b"LOADBOOL ",
    *b"LOADNIL  ",
    *b"GETUPVAL ",
    *b"GETGLOBAL",
    *b"GETTABLE ",
    *b"SETGLOBAL",
    *b"SETUPVAL ",
    *b"SETTABLE ",
    *b"NEWTABLE ",
    *b"SELF     ",
    *b"ADD      ",
    *b"SUB      ",
    *b"MUL      ",
    *b"DIV      ",
    *b"MOD      ",
    *b"POW      ",
    *b"UNM      ",
    *b"NOT      ",
    *b"LEN      ",
    *b"CONCAT   ",
    *b"JMP      ",
    *b"EQ       ",
    *b"LT       ",
    *b"LE       ",
    *b"TEST     ",
    *b"TESTSET  ",
    *b"CALL     ",
    *b"TAILCALL ",
    *b"RETURN   ",
    *b"FORLOOP  ",
    *b"FORPREP  ",
    *b"TFORLOOP ",
    *b"SETLIST  ",
    *b"CLOSE    ",
    *b"CLOSURE  ",
    *b"VARARG   ",
];

// The table, with its rule. It is lent, as that of the attributes.
#[tactic(auto, unfolding(crate::specs::OpCodes::opcodes))]
fn op_names() -> &'static [[u8; 9]; ROWS]
    ensures { result.now ≡ map (λ (o : Row). padded o.name) opcodes }
{
    &OP_NAMES
}

// The name of an opcode, padded with spaces, MOVE's for a number that is no opcode's.
#[tactic(auto, using(crate::proofs::Table::row_listed))]
pub fn name(op: u8) -> [u8; 9]
    ensures { result ≡ padded (op_name op) }
{
    row(op_names(), op)
}
