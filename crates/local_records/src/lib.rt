// The name of an active local, looked up in a lent slice of records that is filled from the store (debug_info.rs, get_local_name). The call for C
// takes the words and the text apart, as C lends them.
#![tactic(auto)]

pub mod record;

ghost use Rattle.std.specs.Prelude.{[], ◌≡◌, length};
ghost use Rattle.lent.specs.Memory.{Puts};
ghost use Rattle.debug_info.specs.Calls.{named_result};
ghost use Rattle.debug_info.specs.Known.{object_of};
ghost use Rattle.local_records.specs.Records.{records_of, active_in};
ghost use Rattle.local_records.specs.Lookup.{numbered, locals_for, lookup_left, local_named_in};

use debug_info::answer::Named;
use debug_info::list::{active_local, look};
use debug_info::name::{Kind, Known, name_len};
use debug_info::write_known;
use format::{Locals, Refusal, Span, StoredItem, low};
use proto::store::Store;
use proto::walk::{skip, word_at};
use record::LocalRecord;
use std::ops::ControlFlow;

// How many bytes the name of what is known has, none where nothing is.
fn known_len(text: &[u8], v: Option<Known>) -> usize
    ensures { Puts (object_of text.now v).name 0 [] result [] }
{
    v.map_or(0, |known| name_len(text, known.name))
}

// Where the words of the locals of the function at a place stand, four for each, for a lookup in records that writes to out: refused by 10, 12,
// 8, 11. The room for the name is tested here, before a record is filled, so that a refused call leaves them.
#[tactic(auto, using(std::proofs::lemmas::Result::err_from_is_err_and, crate::proofs::Lookup::for_refused))]
fn locals_for(
    store: Store,
    place: usize,
    local_number: usize,
    pc: u32,
    records: &[LocalRecord],
    out: &[u8],
) -> Result<Span, Refusal>
    ensures { numbered result ≡ locals_for store.entry.words.now store.entry.text.now place local_number pc (length records.now) (length out.now) }
{
    store.has_function(place)?;
    let locals = store.lists_at(place).locals;
    let count = word_at(store.words, locals) as usize;
    if records.len() < count {
        return Err(Refusal::TooFewWords);
    }
    let v = active_local(store.words, locals, local_number, pc);
    if out.len() < known_len(store.text, v) {
        return Err(Refusal::TooLittleOutput);
    }
    Ok(Span {
        start: skip(store.words, locals, 1),
        len: Locals::WORDS as usize * count,
    })
}

// Fills records with the locals that have these words. By the index: where iter_mut is zipped, nothing is known of the records behind the loop.
fn fill(records: &mut [LocalRecord], words: &[[u32; 4]])
    requires { length records.old ≡ length words.now }
    ensures { records.new ≡ records_of words.now }
{
    for (i, r) in records.iter_mut().enumerate() {
        *r = words[i].into();
    }
}

// The local that is number local_number of those active at pc, among the records. By try_fold the proof didn't close: that what it gives is active_in's
// was left open.
#[tactic(auto, using(crate::proofs::Records::search_found, crate::proofs::Records::search_left, crate::proofs::Records::search_over))]
fn find(records: &[LocalRecord], local_number: usize, pc: u32) -> Option<Known>
    ensures { result ≡ active_in records.now local_number pc }
{
    let mut remaining = local_number;
    for r in records {
        match look(r.known(), r.start, r.end, remaining, pc) {
            ControlFlow::Break(found) => return found,
            ControlFlow::Continue(left) => remaining = left,
        }
    }
    None
}

// Looks the name of local number local_number up in records, and writes it. Refused by 10, 12, 8, 11.
#[tactic(auto, using(std::proofs::lemmas::Result::err_from_is_err_and, crate::proofs::Lookup::in_refused, crate::proofs::Lookup::count_enough, crate::proofs::Lookup::count_taken))]
fn look_up(
    records: &mut [LocalRecord],
    store: Store,
    place: usize,
    local_number: usize,
    pc: usize,
    out: &mut [u8],
) -> Result<Option<(Kind, usize)>, Refusal>
    ensures { lookup_left (named_result result) records.new out.new ≡ local_named_in records.old store.entry.words.now store.entry.text.now place local_number pc out.old }
{
    let pc = low(pc);
    let span = locals_for(store, place, local_number, pc, records, out)?;
    let (words, _) = span.of(store.words).as_chunks();
    let locals = &mut records[..words.len()];
    fill(locals, words);
    write_known(store.text, find(locals, local_number, pc), out)
}

// The name of local number local_number, from 1, of those active at pc, looked up in records, one for each local of the function.
// Refused by 10, 12, 8 where the records are too few, 11: then the records and out keep their contents, and so do always the records behind
// the locals'. The answer, and what is left in out, is get_local_name's.
pub fn get_local_name_in(
    records: &mut [LocalRecord],
    words: &[u32],
    text: &[u8],
    place: usize,
    local_number: usize,
    pc: usize,
    out: &mut [u8],
) -> Named
    ensures { lookup_left result records.new out.new ≡ local_named_in records.old words.now text.now place local_number pc out.old }
{
    look_up(records, Store { words, text }, place, local_number, pc, out).into()
}
