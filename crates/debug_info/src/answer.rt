// The answers of the naming calls, as C reads them: the refusal, 0 where there is none, then numbers, all 0 on refusal.
ghost use Rattle.std.specs.Prelude.{◌≡◌};
ghost use Rattle.debug_info.specs.Calls.{symbexec_result, named_result};

use crate::name::Kind;
use format::Refusal;

// An instruction.
#[repr(C)]
#[derive(Clone, Copy)]
pub struct SymbExec {
    pub refusal: u32,
    pub instruction: u32,
}

// What symbexec answers: the instruction, or why it is refused.
impl From<Result<u32, Refusal>> for SymbExec {
    ghost from_gives = { λ r a. a ≡ symbexec_result r };

    fn from(r: Result<u32, Refusal>) -> SymbExec {
        let (refusal, instruction) = match r {
            Ok(i) => (0, i),
            Err(e) => (e.into(), 0),
        };
        SymbExec {
            refusal,
            instruction,
        }
    }
}

// What a name is of (1 a local, 2 a global, 3 a field, 4 an upvalue, 5 a method, 0 nothing), and how many bytes it has.
#[repr(C)]
#[derive(Clone, Copy)]
pub struct Named {
    pub refusal: u32,
    pub kind: u32,
    pub len: usize,
}

// What a call that names a register answers: its name's kind and length where there is one, or why it is refused.
impl From<Result<Option<(Kind, usize)>, Refusal>> for Named {
    ghost from_gives = { λ r a. a ≡ named_result r };

    fn from(r: Result<Option<(Kind, usize)>, Refusal>) -> Named {
        let (refusal, kind, len) = match r {
            Ok(Some((kind, len))) => (0, kind.into(), len),
            Ok(None) => (0, 0, 0),
            Err(e) => (e.into(), 0, 0),
        };
        Named { refusal, kind, len }
    }
}
