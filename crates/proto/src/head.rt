// The numbers at the head of a function. Where none stands at the place asked the answer is open, since the calls check the store first.
ghost use Rattle.std.specs.Prelude.{◌≡◌, ℕ, List};
ghost use Rattle.format.specs.Tree.{Parts, Function, Functions};
ghost use Rattle.format.specs.Store.{function_piece};
ghost use Rattle.format.specs.Valid.{ValidParts};
ghost use Rattle.proto.specs.Head.{head_of};
ghost use Rattle.proto.specs.Walk.{StandsAt};

use crate::walk::{skip, word_at};

// The fields of a function that are no lists.
#[derive(Clone, Copy)]
pub struct Head {
    pub line_defined: u32,
    pub last_line_defined: u32,
    pub num_upvalues: u32,
    pub num_params: u32,
    pub is_vararg: u32,
    pub max_stack_size: u32,
}

// Those of the function at a place. By three words: tried with one slice pattern, the goal stays open where the pattern does not fit, as no fact says there that
// the words are too few.
pub fn head_at(words: &[u32], at: usize) -> Head
    ensures { (p : Parts) (fs : Functions) (t : List ℕ) → ValidParts p → StandsAt words.now t at (function_piece (Function.function p fs)) → result ≡ head_of p }
{
    let line_defined = word_at(words, skip(words, at, 3));
    let last_line_defined = word_at(words, skip(words, at, 4));
    let packed = word_at(words, skip(words, at, 5));
    let [num_upvalues, num_params, is_vararg, max_stack_size] = packed.to_be_bytes();
    Head {
        line_defined,
        last_line_defined,
        num_upvalues: u32::from(num_upvalues),
        num_params: u32::from(num_params),
        is_vararg: u32::from(is_vararg),
        max_stack_size: u32::from(max_stack_size),
    }
}
