// The names of what registers hold (debug_info.rs; in Lua ldebug.c). The calls take the words and the text apart, as C lends them.
#![tactic(auto)]

pub mod answer;
pub mod list;
pub mod name;
pub mod object;

ghost use Rattle.std.specs.Prelude.{◌≡◌, IfOk};
ghost use Rattle.format.specs.Dump.{write_left, written_left};
ghost use Rattle.format.specs.Refusal.{RefusedBy};
ghost use Rattle.debug_info.specs.Names.{object};
ghost use Rattle.debug_info.specs.Known.{name_of, object_of};
ghost use Rattle.debug_info.specs.Calls.{register_refusal, symbexec_answer, symbexec_result, name_left, named, named_result, local_named, knamed, object_named};

use answer::{Named, SymbExec};
use format::{Refusal, Written, low};
use list::{active_local, operand_name};
use name::{Kind, Known, Name, write_name};
use proto::store::Store;
use proto::walk::{code_at, constants_at, word_at};
use symbexec::symbexec_at;

// The pc and the register, where the function at a place is there, has the pc and may have the register: refused by 10, 12, 13, 14.
// Store and place are told apart, here and in those below: as one struct with methods, tried, this file had 180 lines and not 150, since each step then reads
// self.store.words and self.place.
#[tactic(auto, using(std::proofs::lemmas::Result::err_from_is_err_and, crate::proofs::Calls::register_place))]
fn check_register(store: Store, place: usize, pc: usize, reg: u32) -> Result<(u32, u8), Refusal>
    ensures refused { RefusedBy (register_refusal store.entry.words.now store.entry.text.now place pc reg) result }
    ensures found { IfOk result (λ r. (r.0 ≡ pc) × (r.1 ≡ reg)) }
{
    store.has_function(place)?;
    let code = word_at(store.words, code_at(store.words, place)) as usize;
    if code < pc {
        return Err(Refusal::BadPc);
    }
    let Ok(reg) = u8::try_from(reg) else {
        return Err(Refusal::BadRegister);
    };
    Ok((low(pc), reg))
}

// The answer for a kind by its number, whichever it is, and a name, which goes to out. 11 where it does not fit.
pub fn give(text: &[u8], kind: u32, name: Name, out: &mut [u8]) -> Named
    ensures { name_left result out.new ≡ named (object kind (name_of text.now name)) out.old }
{
    match write_name(text, name, out) {
        Ok(len) => Named {
            refusal: 0,
            kind,
            len,
        },
        Err(e) => Err(e).into(),
    }
}

// Writes the name of what is known from the start of out, and answers its kind and its length, nothing where nothing is known. Refused by 11.
#[tactic(auto, using(std::proofs::lemmas::Result::err_from_is_err_and))]
pub fn write_known(
    text: &[u8],
    v: Option<Known>,
    out: &mut [u8],
) -> Result<Option<(Kind, usize)>, Refusal>
    ensures { name_left (named_result result) out.new ≡ named (object_of text.now v) out.old }
{
    let Some(known) = v else {
        return Ok(None);
    };
    let len = write_name(text, known.name, out)?;
    Ok(Some((known.kind, len)))
}

// The last instruction before lastpc that wrote a register. Refused by 10, 12, 13, 14.
#[tactic(auto, using(std::proofs::lemmas::Result::err_from_is_err_and, crate::proofs::Calls::register_refused), unfolding(crate::specs::Calls::symbexec_answer))]
fn find_write(store: Store, place: usize, lastpc: usize, reg: u32) -> Result<u32, Refusal>
    ensures { symbexec_result result ≡ symbexec_answer store.entry.words.now store.entry.text.now place lastpc reg }
{
    let (lastpc, reg) = check_register(store, place, lastpc, reg)?;
    Ok(symbexec_at(store.lists_at(place), lastpc, u32::from(reg)))
}

// The last instruction before lastpc that wrote a register. Refused by 10, 12, 13, 14.
pub fn symbexec(words: &[u32], text: &[u8], place: usize, lastpc: usize, reg: u32) -> SymbExec
    ensures { result ≡ symbexec_answer words.now text.now place lastpc reg }
{
    SymbExec::from(find_write(Store { words, text }, place, lastpc, reg))
}

// Writes the name of local number local_number, from 1, of those active at pc. Refused by 10, 12, 11.
#[tactic(auto, using(std::proofs::lemmas::Result::err_from_is_err_and, crate::proofs::Calls::place_refused), unfolding(crate::specs::Calls::local_named))]
fn write_local_name(
    store: Store,
    place: usize,
    local_number: usize,
    pc: usize,
    out: &mut [u8],
) -> Result<Option<(Kind, usize)>, Refusal>
    ensures { name_left (named_result result) out.new ≡ local_named store.entry.words.now store.entry.text.now place local_number pc out.old }
{
    store.has_function(place)?;
    let locals = store.lists_at(place).locals;
    let v = active_local(store.words, locals, local_number, low(pc));
    write_known(store.text, v, out)
}

// The name of local number local_number, from 1, of those active at pc: kind 1, and its bytes in out; kind 0 where there is none.
// Refused by 10, 12, 11. Refused, or with no name, out keeps its contents, and so do its bytes behind a name.
pub fn get_local_name(
    words: &[u32],
    text: &[u8],
    place: usize,
    local_number: usize,
    pc: usize,
    out: &mut [u8],
) -> Named
    ensures { name_left result out.new ≡ local_named words.now text.now place local_number pc out.old }
{
    write_local_name(Store { words, text }, place, local_number, pc, out).into()
}

// Writes the name of an RK operand from the start of out, and answers its length. Refused by 10, 12, 11.
#[tactic(auto, using(std::proofs::lemmas::Result::err_from_is_err_and, crate::proofs::Calls::place_refused), unfolding(crate::specs::Calls::knamed))]
fn write_kname(store: Store, place: usize, c: u32, out: &mut [u8]) -> Result<usize, Refusal>
    ensures { written_left result out.new ≡ knamed store.entry.words.now store.entry.text.now place c out.old }
{
    store.has_function(place)?;
    let constants = constants_at(store.words, place);
    write_name(store.text, operand_name(store.words, constants, c), out)
}

// The name of an RK operand, in out: its string constant, repaired, or ?. Refused by 10, 12, 11: then out keeps its contents.
pub fn kname(words: &[u32], text: &[u8], place: usize, c: u32, out: &mut [u8]) -> Written
    ensures { write_left result out.new ≡ knamed words.now text.now place c out.old }
{
    write_kname(Store { words, text }, place, c, out).into()
}

// Writes the name of what register stackpos holds at pc. Refused by 10, 12, 13, 14, 11.
#[tactic(auto, using(std::proofs::lemmas::Result::err_from_is_err_and, crate::proofs::Calls::register_refused), unfolding(crate::specs::Calls::object_named))]
fn write_objname(
    store: Store,
    place: usize,
    pc: usize,
    stackpos: u32,
    out: &mut [u8],
) -> Result<Option<(Kind, usize)>, Refusal>
    ensures { name_left (named_result result) out.new ≡ object_named store.entry.words.now store.entry.text.now place pc stackpos out.old }
{
    let (pc, reg) = check_register(store, place, pc, stackpos)?;
    let v = object::getobjname(store.lists_at(place), pc, reg, [false; 256]);
    write_known(store.text, v, out)
}

// What register stackpos holds at pc: its kind, and its name in out; kind 0 where nothing is known.
// Refused by 10, 12, 13, 14, 11. Refused, or with no name, out keeps its contents.
pub fn getobjname(
    words: &[u32],
    text: &[u8],
    place: usize,
    pc: usize,
    stackpos: u32,
    out: &mut [u8],
) -> Named
    ensures { name_left result out.new ≡ object_named words.now text.now place pc stackpos out.old }
{
    write_objname(Store { words, text }, place, pc, stackpos, out).into()
}
