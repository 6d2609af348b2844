// Functions, written to a chunk from where they stand in the store.
ghost use Rattle.std.specs.Prelude.{List, []};
ghost use Rattle.format.specs.Tree.{Constant as Value};
ghost use Rattle.format.specs.Tree.{Source, Parts, Functions, Function, count};
ghost use Rattle.format.specs.Store.{source_piece, function_piece};
ghost use Rattle.format.specs.Valid.{Valid, ValidParts, ValidAll};
ghost use Rattle.format.specs.Write.{dump_string, dump_constants, dump_function, dump_functions};
ghost use Rattle.dump.specs.Step.{Dumps, progress, constants_piece, parts_piece, dump_parts, as_source, seen};

use crate::list::{Dumper, Reached};
use format::Constants;
use proto::walk::{skip, word_at};

impl<'a> Dumper<'a> {
    // The source of a function: size 0 where none is to be written.
    #[tactic(auto, using(crate::proofs::Functions::source_none, crate::proofs::Functions::source_own))]
    fn dump_source<const STORED: bool>(
        self,
        out: &mut [u8],
        s: Reached,
        source: Option<&[u8]>,
    ) -> Reached
        ensures { (v : Source) → Dumps self.entry (source_piece v) (dump_string self.entry.options.size_4 (as_source source.entry)) (progress s (seen STORED out.old)) (progress result (seen STORED out.new)) }
    {
        let len = match source {
            Some(source) => self.options.dump_string::<STORED>(out, s.len, source),
            None => self.options.dump_size::<STORED>(out, s.len, 0),
        };
        Reached {
            at: skip(self.store.words, s.at, 3),
            len,
        }
    }

    // The root: an inherited source stands for the chunk name, and an empty one is not written.
    #[tactic(auto, using(proto::proofs::Walks::none_deep))]
    pub fn dump_root<const STORED: bool>(
        self,
        out: &mut [u8],
        s: Reached,
        name: &'a [u8],
        allowance: u32,
    ) -> Reached
        ensures { (f : Function) → Valid f allowance → Dumps self.entry (function_piece f) (dump_function f self.entry.options.strip self.entry.options.size_4 [] name.now) (progress s (seen STORED out.old)) (progress result (seen STORED out.new)) }
    {
        if allowance == 0 {
            return s;
        }
        let source = self.store.own_source(name, s.at);
        let defined = self.dump_source::<STORED>(out, s, (!source.is_empty()).then_some(source));
        self.dump_parts::<STORED>(out, defined, source, allowance - 1)
    }

    // A function within one whose source is outer. An inherited source, perhaps megabytes, is not compared with it.
    #[cycle(dump_constants_dump_function_dump_parts)]
    #[tactic(auto, using(proto::proofs::Walks::none_deep))]
    pub fn dump_function<const STORED: bool>(
        self,
        out: &mut [u8],
        s: Reached,
        outer: &'a [u8],
        allowance: u32,
    ) -> Reached
        ensures { (f : Function) → Valid f allowance → Dumps self.entry (function_piece f) (dump_function f self.entry.options.strip self.entry.options.size_4 outer.now outer.now) (progress s (seen STORED out.old)) (progress result (seen STORED out.new)) }
    {
        if allowance == 0 {
            return s;
        }
        let source = self.store.own_source(outer, s.at);
        let is_own = word_at(self.store.words, s.at) != 0;
        let line_defined = self.dump_source::<STORED>(
            out,
            s,
            (is_own && source != outer).then_some(source),
        );
        self.dump_parts::<STORED>(out, line_defined, source, allowance - 1)
    }

    // What stands behind the source of a function.
    #[cycle(dump_constants_dump_function_dump_parts)]
    fn dump_parts<const STORED: bool>(
        self,
        out: &mut [u8],
        s: Reached,
        source: &'a [u8],
        allowance: u32,
    ) -> Reached
        ensures { (p : Parts) (fs : Functions) → ValidParts p → ValidAll fs allowance → Dumps self.entry (parts_piece p fs) (dump_parts self.entry.options.strip self.entry.options.size_4 source.now p fs) (progress s (seen STORED out.old)) (progress result (seen STORED out.new)) }
    {
        let packed = self.dump_two::<STORED>(out, s);
        let code = self.dump_packed::<STORED>(out, packed);
        let constants = self.dump_code::<STORED>(out, code);
        let debug = self.dump_constants::<STORED>(out, constants, source, allowance);
        self.dump_debug::<STORED>(out, debug)
    }

    // The constants of a function, of which source is the source, and the functions in it.
    #[cycle(dump_constants_dump_function_dump_parts)]
    #[tactic(auto, using(format::proofs::Loops::loop_turn, crate::proofs::Lists::all_more))]
    pub fn dump_constants<const STORED: bool>(
        self,
        out: &mut [u8],
        s: Reached,
        source: &'a [u8],
        allowance: u32,
    ) -> Reached
        ensures { (ks : List Value) (fs : Functions) → ValidAll fs allowance → Dumps self.entry (constants_piece ks fs) (dump_constants self.entry.options.size_4 ks (count fs) (dump_functions fs self.entry.options.strip self.entry.options.size_4 source.now)) (progress s (seen STORED out.old)) (progress result (seen STORED out.new)) }
    {
        let functions = self.dump_list::<STORED, Constants>(out, s);
        let n = word_at(self.store.words, functions.at);
        let mut r = self.dump_word::<STORED>(out, functions);
        for _ in 0..n {
            r = self.dump_function::<STORED>(out, r, source, allowance);
        }
        r
    }
}
