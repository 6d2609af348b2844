// Constants and operands of instructions as text. put_* and format_* write by a writer: what is past the end is not written. fit_* ask for room.
#![tactic(auto)]

pub mod constant;
pub mod fit;
pub mod operand;
