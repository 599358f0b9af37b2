//! One complex sample of an antenna.
#![tactic(auto)]

/// The in-phase and the quadrature part, as the front end delivers them.
#[derive(Clone, Copy, PartialEq, Eq, Default, Debug)]
pub struct Sample {
    pub i: i16,
    pub q: i16,
}
