// Repeats the Rust's answers: reads records from standard input, asks this library the same, and writes how many answers were
// compared and how many differ. A record is a letter and what follows it, all numbers low byte first:
//   R  2 bytes length, bytes, 1 byte whether they are UTF-8, 2 bytes length, the bytes repaired
//   I  an instruction word, then its opcode, A, B, C, Bx and sBx, 4 bytes each
//   O  an opcode, its name padded to 9, mode, kinds of B and C, test, sets A, 1 byte each
#![tactic(auto)]

mod instruction;
mod text;

use std::io;
use test_records::Records;

// How many answers were compared, how many differ, and how many bytes they take.
#[derive(Default, Drop)]
struct Tally {
    compared: u32,
    differ: u32,
    read: usize,
}

// One record, counted. Another letter ends the records.
fn record(records: &mut Records, t: &mut Tally) {
    let before = records.len();
    let same = match records.byte() {
        b'R' => text::repaired(records),
        b'I' => instruction::fields(records),
        b'O' => instruction::attributes(records),
        _ => {
            records.end();
            return;
        }
    };
    t.compared = t.compared.saturating_add(1);
    t.differ = t.differ.saturating_add(u32::from(!same));
    t.read = t.read.saturating_add(before.saturating_sub(records.len()));
}

fn main(rt: HostRuntime) -> io::Result<()> {
    let mut t = Tally::default();
    test_records::each(&rt, |records| Ok(record(records, &mut t)))?;
    println!(rt;
        "{} answers compared, {} differ, {} bytes read",
        t.compared, t.differ, t.read
    )
}
