// A record of a local.
ghost use Rattle.std.specs.Prelude.{◌≡◌};
ghost use Rattle.local_records.specs.Records.{record_at, text_named};

use debug_info::name::{Kind, Known, Name};
use format::Span;

// A local, as C has it: where its name stands in the text, how many bytes it has, and the pcs from which and before which it is active.
#[repr(C)]
#[derive(Clone, Copy)]
pub struct LocalRecord {
    pub place: u32,
    pub len: u32,
    pub start: u32,
    pub end: u32,
}

impl LocalRecord {
    // What is known of a register that holds it. active_local makes the same of a place and a length as usize: a function of both would be longer.
    pub fn known(self) -> Known
        ensures { result ≡ text_named self.place self.len }
    {
        Known {
            kind: Kind::Local,
            name: Name::Text(Span {
                start: self.place as usize,
                len: self.len as usize,
            }),
        }
    }
}

// The record of the local that has these words.
impl From<[u32; 4]> for LocalRecord {
    ghost from_gives = { λ words r. r ≡ record_at words 0 };

    fn from([place, len, start, end]: [u32; 4]) -> LocalRecord {
        LocalRecord {
            place,
            len,
            start,
            end,
        }
    }
}
