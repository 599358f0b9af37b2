//! The theory of places that every move rests on. There is no code here but the calls whose contracts are its laws.
#![tactic(auto)]

ghost use Rattle.places.specs.Laws.{Moving, Permuting, Transposing, Turning};

/// The laws of lists of places and of orders.
pub fn orders_stand<T>()
    ensures moving { Moving T }
    ensures permuting { Permuting }
{}

/// The laws of the turn.
pub fn turns_stand<T>()
    ensures turning { Turning }
    ensures transposing { Transposing T }
{}
