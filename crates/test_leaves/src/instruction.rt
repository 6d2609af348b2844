// instructions against instructions.rs.
use instructions::{Instruction, name, op_modes};
use std::array;
use test_records::Records;

// Whether the word is made again of its own fields.
fn made_again(i: Instruction) -> bool {
    let op = (i.0 % 64) as u8;
    Instruction::abc(op, i.a(), i.b(), i.c()).0 == i.0
        && Instruction::a_bx(op, i.a(), i.bx()).0 == i.0
        && Instruction::a_sbx(op, i.a(), i.sbx()).0 == i.0
}

// An I record.
pub fn fields(records: &mut Records) -> bool {
    let i = Instruction(records.word());
    let told: [u32; 6] = array::from_fn(|_| records.word());
    let fields = [
        u32::from(i.opcode()),
        i.a(),
        i.b(),
        i.c(),
        i.bx(),
        i.sbx().cast_unsigned(),
    ];
    fields == told && made_again(i)
}

// An O record.
pub fn attributes(records: &mut Records) -> bool {
    let op = records.byte();
    let told_name: [u8; 9] = records.array();
    let told: [u8; 5] = records.array();
    let o = op_modes(op);
    let attributes = [
        o.mode as u8,
        o.b_mode as u8,
        o.c_mode as u8,
        u8::from(o.is_test_mode),
        u8::from(o.sets_register_a),
    ];
    name(op) == told_name && attributes == told
}
