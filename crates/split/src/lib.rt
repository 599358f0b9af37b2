//! The parts of a matrix that is halved along its longer side until every part is small, one after another.
#![tactic(auto)]

ghost use Rattle.split.specs.Laws.{Counted, Parted, Roomy};

mod count;
mod halve;
mod region;
mod walk;

pub use count::{split_tiles, whole_tiles};
pub use region::Region;
pub use walk::Walk;

/// The laws of halving, of leaves and of the room that a walk needs.
#[tactic(auto, using(crate::proofs::Leaves::counted, crate::proofs::Leaves::parted, crate::proofs::Room::room))]
pub fn splits_stand()
    ensures counted { Counted }
    ensures parted { Parted }
    ensures roomy { Roomy }
{}
