// The lists of a function whose items are read one by one, each list after its count.
ghost use Rattle.std.specs.Prelude.{Bool, List, ℕ};
ghost use Rattle.format.specs.Tree.{Local};
ghost use Rattle.format.specs.Tree.{Constant as TreeConstant};
ghost use Rattle.format.specs.Read.{Reader, load_text, load_local, load_constant};
ghost use Rattle.format.specs.Read.{load_list as list_reader};
ghost use Rattle.format.specs.Store.{Piece, constant_piece};
ghost use Rattle.format.specs.Store.{list as list_piece};
ghost use Rattle.format.specs.Constants.{value_of};
ghost use Rattle.load.specs.Loads.{Stores, Loads, repaired_name};
ghost use Rattle.load_function.specs.Repaired.{repaired_local_piece};

use format::{Constant, Constants, Locals, Names, Refusal, Tag};
use load::Loader;

// What the items of a list are. proto, dump and listing_headers have such a trait each, as proto's says.
pub trait Item {
    ghost Value: { Type 0 };

    ghost reader: { Bool → Reader Value };

    ghost piece: { Value → Piece };

    fn load(s: &mut Loader) -> Result<(), Refusal>
        ensures { Loads (reader s.old.reader.size_4) piece s.old s.new result };
}

// A list of them: its count, and one by one.
pub fn load_list<T: Item>(s: &mut Loader) -> Result<(), Refusal>
    ensures { Loads (list_reader (T.reader s.old.reader.size_4)) (list_piece T.piece) s.old s.new result }
{
    let n = s.copy_count()?;
    for _i in 0..n {
        T::load(s)?;
    }
    Ok(())
}

// A constant that was read goes to the store.
fn put_constant(s: &mut Loader, k: Constant)
    ensures { Stores (constant_piece (value_of s.old.reader.state.chunk.now k)) s.old s.new }
{
    match k {
        Constant::Nil => s.put_words([Tag::Nil as u32, 0, 0]),
        Constant::Bool(b) => s.put_words([Tag::Bool as u32, u32::from(b), 0]),
        Constant::Num(high, low) => s.put_words([Tag::Num as u32, high, low]),
        Constant::String(z) => s.put_str(z.of(s.reader.state.chunk)),
    }
}

impl Item for Constants {
    ghost Value = { TreeConstant };

    ghost reader = { load_constant };

    ghost piece = { constant_piece };

    fn load(s: &mut Loader) -> Result<(), Refusal> {
        let k = s.advance(s.reader.load_constant()?);
        put_constant(s, k);
        Ok(())
    }
}

// Each a name and two integers.
impl Item for Locals {
    ghost Value = { Local };

    ghost reader = { load_local };

    ghost piece = { repaired_local_piece };

    fn load(s: &mut Loader) -> Result<(), Refusal> {
        s.load_name()?;
        s.copy_int()?;
        s.copy_int()
    }
}

impl Item for Names {
    ghost Value = { List ℕ };

    ghost reader = { load_text };

    ghost piece = { repaired_name };

    fn load(s: &mut Loader) -> Result<(), Refusal> {
        s.load_name()
    }
}
