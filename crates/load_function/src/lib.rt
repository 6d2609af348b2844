// Functions, one inside the other.
#![tactic(auto)]

pub mod list;

ghost use Rattle.std.specs.Prelude.{◌≡◌};
ghost use Rattle.format.specs.Read.{load_code, load_constants, load_debug, load_function};
ghost use Rattle.format.specs.Store.{ints};
ghost use Rattle.load.specs.Loads.{Loads};
ghost use Rattle.load_function.specs.Repaired.{load_limits, limits_piece, repaired_constants, repaired_debug_piece, repaired_function};

use format::{Constants, Locals, Names, Refusal};
use list::load_list;
use load::Loader;

// By the name that it has in lundump.c, LoadCode. The text stays, refused or not.
pub fn load_code(s: &mut Loader) -> Result<(), Refusal>
    ensures loads { Loads load_code ints s.old s.new result }
    ensures text { s.new.text.now ≡ s.old.text.now }
{
    s.load_ints()
}

// The lines, the locals and the upvalue names.
#[tactic(auto, unfolding(format::specs::Read::load_debug))]
pub fn load_debug(s: &mut Loader) -> Result<(), Refusal>
    ensures { Loads (load_debug s.old.reader.size_4) repaired_debug_piece s.old s.new result }
{
    s.load_ints()?;
    load_list::<Locals>(s)?;
    load_list::<Names>(s)
}

// The four bytes behind the lines, read one by one as in lundump.c's LoadFunction, in one word.
fn load_limits(s: &mut Loader) -> Result<(), Refusal>
    ensures { Loads load_limits limits_piece s.old s.new result }
{
    let nu = s.load_byte()?;
    let np = s.load_byte()?;
    let va = s.load_byte()?;
    let ms = s.load_byte()?;
    s.put(u32::from_be_bytes([nu, np, va, ms]));
    Ok(())
}

// A function, with so many functions nested at most.
#[tactic(auto, using(load::proofs::Steps::refused_with, load::proofs::Steps::loads_refused, load::proofs::Steps::loads_then, load::proofs::Steps::at_width, crate::proofs::Trees::limits_then, crate::proofs::Trees::function_too_deep), unfolding(format::specs::Read::load_function))]
#[cycle(load_constants_load_function)]
pub fn load_function(s: &mut Loader, allowance: u32) -> Result<(), Refusal>
    ensures { Loads (load_function s.old.reader.size_4 allowance) repaired_function s.old s.new result }
{
    if allowance == 0 {
        return Err(Refusal::TooDeep);
    }
    s.load_source()?;
    s.copy_int()?;
    s.copy_int()?;
    load_limits(s)?;
    load_code(s)?;
    load_constants(s, allowance - 1)?;
    load_debug(s)
}

// The constants of a function, then the functions inside it: a loop and no Item, as the check gives no proof of one whose load leads back to it.
#[tactic(auto, using(load::proofs::Steps::refused_with, load::proofs::Steps::loads_refused, crate::proofs::Trees::constants_loaded), unfolding(format::specs::Read::load_constants))]
#[cycle(load_constants_load_function)]
pub fn load_constants(s: &mut Loader, allowance: u32) -> Result<(), Refusal>
    ensures { Loads (load_constants s.old.reader.size_4 (load_function s.old.reader.size_4 allowance)) repaired_constants s.old s.new result }
{
    load_list::<Constants>(s)?;
    let n = s.copy_count()?;
    for _i in 0..n {
        load_function(s, allowance)?;
    }
    Ok(())
}
