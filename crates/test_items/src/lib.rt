// A kind of items that says only how one is written: a list of them is written, and counted too.
#![tactic(auto)]

ghost use Rattle.std.specs.Prelude.{ℕ, Bool};
ghost use Rattle.format.specs.Store.{word};
ghost use Rattle.format.specs.Write.{dump_int};

use dump::item::Item;
use dump::list::{Dumper, Reached};

// Words, each written as an integer.
pub struct Words;

impl Item for Words {
    ghost Value = { ℕ };

    ghost piece = { word };

    ghost bytes = { λ (size4 : Bool) (n : ℕ). dump_int n };

    fn dump(d: Dumper, out: &mut [u8], s: Reached) -> Reached {
        d.dump_word::<true>(out, s)
    }
}

#[cfg(test)]
mod tests {
    use super::*;
    use dump::block::Options;
    use dump::item::ByWriting;
    use proto::store::Store;

    #[test]
    fn counts_what_it_writes(rt: HostRuntime) {
        let words = [3, 5, 0x01020304, 7];
        let store = Store {
            words: &words,
            text: &[],
        };
        let options = Options {
            strip: false,
            size_4: false,
        };
        let dumper = Dumper { store, options };
        let start = Reached { at: 0, len: 0 };
        let mut out = [0; 16];
        let counted = dumper.dump_list::<false, ByWriting<Words>>(&mut [], start);
        let written = dumper.dump_list::<true, ByWriting<Words>>(&mut out, start);
        assert_eq!(rt; counted.at, 4);
        assert_eq!(rt; counted.len, 16);
        assert_eq!(rt; written.at, 4);
        assert_eq!(rt; written.len, 16);
        assert_eq!(rt; out, [3, 0, 0, 0, 5, 0, 0, 0, 4, 3, 2, 1, 7, 0, 0, 0]);
    }
}
