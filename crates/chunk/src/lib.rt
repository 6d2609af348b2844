// The library's face: the calls that the static library chunk_c exports for C, each with the contract of the call that it passes on.
// Functions and no `pub use` of the calls below: so the contracts of all ten stand on one page, under the names that C has.
#![tactic(auto)]

ghost use Rattle.std.specs.Prelude.{◌≡◌};
ghost use Rattle.format.specs.Undump.{measured, stored};
ghost use Rattle.format.specs.Dump.{write_left, dumped};
ghost use Rattle.listing.specs.Listing.{listed};
ghost use Rattle.undump.specs.Undump.{undump_left};
ghost use Rattle.debug_info.specs.Calls.{symbexec_answer, name_left, local_named, knamed, object_named};
ghost use Rattle.local_records.specs.Lookup.{lookup_left, local_named_in};
ghost use Rattle.proto.specs.Places.{source_answer};

use debug_info::answer::{Named, SymbExec};
use format::{Undumped, Written};
use local_records::record::LocalRecord;
use proto::place::SourceAt;

// The space that the tree of a chunk takes: measure.
pub fn lua_chunk_measure(chunk: &[u8], name: &[u8]) -> Undumped
    ensures { result ≡ measured chunk.now name.now }
{
    undump::measure(chunk, name)
}

// Stores the tree of a chunk, given what was measured, in lent memory: store.
pub fn lua_chunk_store(
    chunk: &[u8],
    name: &[u8],
    need_words: usize,
    need_text: usize,
    need_read: usize,
    words: &mut [u32],
    text: &mut [u8],
) -> Undumped
    ensures { undump_left result words.new text.new ≡ stored chunk.now name.now need_words need_text need_read words.old text.old }
{
    undump::store(chunk, name, need_words, need_text, need_read, words, text)
}

// Writes the chunk of a store to lent memory: dump.
pub fn lua_chunk_dump<'a>(
    words: &[u32],
    text: &'a [u8],
    name: &'a [u8],
    strip: bool,
    size_4: bool,
    out: &mut [u8],
) -> Written
    ensures { write_left result out.new ≡ dumped words.now text.now name.now strip size_4 out.old }
{
    dump::dump(words, text, name, strip, size_4, out)
}

// Writes the listing of a store to lent memory: list_function.
pub fn lua_chunk_list_function<'a>(
    words: &[u32],
    text: &'a [u8],
    name: &'a [u8],
    full: bool,
    out: &mut [u8],
) -> Written
    ensures { write_left result out.new ≡ listed words.now text.now name.now full out.old }
{
    listing::list_function(words, text, name, full, out)
}

// The last instruction that wrote a register: symbexec.
pub fn lua_chunk_symbexec(
    words: &[u32],
    text: &[u8],
    place: usize,
    lastpc: usize,
    reg: u32,
) -> SymbExec
    ensures { result ≡ symbexec_answer words.now text.now place lastpc reg }
{
    debug_info::symbexec(words, text, place, lastpc, reg)
}

// The name of an active local: get_local_name.
pub fn lua_chunk_get_local_name(
    words: &[u32],
    text: &[u8],
    place: usize,
    local_number: usize,
    pc: usize,
    out: &mut [u8],
) -> Named
    ensures { name_left result out.new ≡ local_named words.now text.now place local_number pc out.old }
{
    debug_info::get_local_name(words, text, place, local_number, pc, out)
}

// The name of an active local, looked up in lent records: get_local_name_in.
pub fn lua_chunk_get_local_name_in(
    records: &mut [LocalRecord],
    words: &[u32],
    text: &[u8],
    place: usize,
    local_number: usize,
    pc: usize,
    out: &mut [u8],
) -> Named
    ensures { lookup_left result records.new out.new ≡ local_named_in records.old words.now text.now place local_number pc out.old }
{
    local_records::get_local_name_in(records, words, text, place, local_number, pc, out)
}

// The name of an RK operand: kname.
pub fn lua_chunk_kname(words: &[u32], text: &[u8], place: usize, c: u32, out: &mut [u8]) -> Written
    ensures { write_left result out.new ≡ knamed words.now text.now place c out.old }
{
    debug_info::kname(words, text, place, c, out)
}

// The name of what a register holds: getobjname.
pub fn lua_chunk_getobjname(
    words: &[u32],
    text: &[u8],
    place: usize,
    pc: usize,
    stackpos: u32,
    out: &mut [u8],
) -> Named
    ensures { name_left result out.new ≡ object_named words.now text.now place pc stackpos out.old }
{
    debug_info::getobjname(words, text, place, pc, stackpos, out)
}

// Where the source of the function at a place stands: source_at.
pub fn lua_chunk_source_at(words: &[u32], text: &[u8], name: &[u8], place: usize) -> SourceAt
    ensures { result ≡ source_answer words.now text.now name.now place }
{
    proto::place::source_at(words, text, name, place)
}
