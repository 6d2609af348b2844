// The functions in a function, looked up by index. Where none stand at the place asked the answer is open, since the calls check the store first.
ghost use Rattle.std.specs.Prelude.{◌≡◌, ◌≤◌, ◌<◌, MatchOption};
ghost use Rattle.proto.specs.Children.{counted, ChildAt};

use crate::walk::{Next, first_in, pass_all, word_at};

// The functions in a function: the words, the place of their list, the function's number in preorder, and how many are nested in each at most.
#[derive(Clone, Copy)]
pub struct Children<'a> {
    pub words: &'a [u32],
    pub list: usize,
    pub number: usize,
    pub allowance: u32,
}

impl<'a> Children<'a> {
    // To look them up by index, from the first on.
    #[tactic(auto, using(crate::proofs::Children::child_first))]
    pub fn by_index(self) -> ByIndex<'a>
        ensures { (result.of ≡ self.entry) × (result.index ≡ 0) }
    {
        ByIndex {
            of: self,
            index: 0,
            next: first_in(self.words, self.list, self.number),
        }
    }
}

// Those functions by index. The one found last is kept, so that those asked for in order cost one walk. No Model that has contracts see `of` alone: tried, the
// clauses of four functions lose `.of`, and it takes the impl, a method for the first one, and one that answers `of`, as the field that symbexec reads is then not
// what contracts see.
#[derive(Clone, Copy)]
pub struct ByIndex<'a> {
    pub of: Children<'a>,
    pub index: u32,
    pub next: Next,
    pub ghost kept: { ChildAt of index next },
}

impl ByIndex<'_> {
    // Where the one with index i begins, and its number; nothing where there is none.
    #[tactic(auto, using(crate::proofs::Children::child_further))]
    pub fn get(&mut self, i: u32) -> Option<Next>
        ensures of { self.new.of ≡ self.old.of }
        ensures found { MatchOption result (counted self.old.of ≤ i) (λ n. (i < counted self.old.of) × ChildAt self.old.of i n) }
    {
        let of = self.of;
        if word_at(of.words, of.list) <= i {
            return None;
        }
        if i < self.index {
            *self = of.by_index();
        }
        self.next = pass_all(of.words, self.next, i - self.index, of.allowance);
        self.index = i;
        Some(self.next)
    }
}
