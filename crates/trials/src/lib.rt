//! Matrices of many shapes, transposed and compared cell by cell. The expected counts are worked out from the rules.
#![tactic(auto)]

#[cfg(test)]
mod kernels;
#[cfg(test)]
mod matrices;
#[cfg(test)]
mod shapes;
#[cfg(test)]
mod single_tiles;
