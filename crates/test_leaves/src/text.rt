// utf8 against String::from_utf8_lossy and std::str::from_utf8.
use test_records::{Records, UNTOUCHED};

// What repairs are written into. A longer text counts as different.
const ROOM: usize = 512;

// Whether the bytes are repaired to these behind the first place, and the bytes before and after are untouched.
fn same_repair(bytes: &[u8], repaired: &[u8]) -> bool {
    let mut out = [UNTOUCHED; ROOM];
    let n = utf8::repair(bytes, &mut out, 1);
    n == repaired.len() + 1
        && n < ROOM
        && out[0] == UNTOUCHED
        && out[n] == UNTOUCHED
        && &out[1..n] == repaired
}

// Whether one byte too little gets the same answer and all but the last byte, and the byte behind is untouched.
fn same_short(bytes: &[u8], repaired: &[u8]) -> bool {
    let Some((_, short)) = repaired.split_last() else {
        return true;
    };
    let n = short.len();
    let mut out = [UNTOUCHED; ROOM];
    n + 1 < ROOM
        && utf8::repair(bytes, &mut out[..n], 0) == n + 1
        && out[n] == UNTOUCHED
        && &out[..n] == short
}

// An R record.
pub fn repaired(records: &mut Records) -> bool {
    let bytes = records.text();
    let valid = records.byte();
    let text = records.text();
    u8::from(utf8::is_utf8(bytes)) == valid && same_repair(bytes, text) && same_short(bytes, text)
}
