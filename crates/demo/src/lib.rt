//! The work of the program, apart from its printing: pages made, sent and taken back.
#![tactic(auto)]

pub mod rules;
pub mod trips;
