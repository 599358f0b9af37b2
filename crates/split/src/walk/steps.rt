//! What a walk does: it yields the leaves one after another. Making one is inner: transposition does.
ghost use Rattle.std.specs.Prelude.{◌≡◌, ◌+◌, ◌*◌, ◌^◌, ◌<◌, ◌≤◌};
ghost use Rattle.std.specs.Iterator.{item_count};
ghost use Rattle.split.specs.Left.{NextLeaf, left};
ghost use Rattle.split.specs.Regions.{Ordered, cols, leaves, rows};

use super::Walk;
use crate::halve::halves;
use crate::region::Region;
use arrayvec::ArrayVec;

impl<const N: usize> Walk<N> {
    /// A walk over the leaves of one region. Inner: N places are enough for its cells, and there is one for the region.
    #[tactic(auto, using(crate::proofs::Halving::sound_one, crate::proofs::Halving::pending_one))]
    pub fn new(whole: Region) -> Walk<N>
        requires ordered { Ordered whole }
        requires place { 0 < N }
        requires cells { rows whole * cols whole ≤ 2 ^ (N + 8) }
        ensures { left result ≡ leaves whole }
    {
        let mut waiting = ArrayVec::new();
        waiting.push(whole);
        Walk { waiting }
    }
}

impl<const N: usize> Iterator for Walk<N> {
    type Item = Region;

    ghost next_gives = { NextLeaf };

    ghost remaining = { item_count left };

    /// The next leaf, or nothing when all are done.
    #[tactic(auto, using(crate::proofs::Halving::walking))]
    fn next(&mut self) -> Option<Region> {
        let mut here = self.waiting.pop()?;
        while !here.is_leaf() {
            let (first, rest) = halves(here);
            self.waiting.push(rest);
            here = first;
        }
        Some(here)
    }
}
