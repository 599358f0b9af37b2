//! The worked cases, as one theorem about the definitions that the contracts use.
#![tactic(auto)]

ghost use Rattle.cases.specs.Cases.{All, Holds, cases};

/// Every worked case is as the rules have it, at every element type.
pub fn worked_cases<T>()
    ensures { All (Holds T) cases }
{}
