//! The walk over the leaves of a region.
ghost use Rattle.split.specs.Regions.{AllSound};

use crate::region::Region;
use arrayvec::ArrayVec;

mod steps;

/// The regions that are put aside, at most N; the last one is looked at next. For the one at place i, as many halvings
/// one inside the other are enough as there are places left, N - i: so its halves find room.
#[derive(Drop)]
pub struct Walk<const N: usize> {
    waiting: ArrayVec<Region, N>,
    ghost sound: { AllSound N waiting.items },
}
