//! Worst-case noise: a bound for each node of a circuit, and the constraints on parameters.
//!
//! The bounds are whole numbers in `specs` and the least of themselves and 2^64 in the code: no limit is above 2^62, so
//! what is compared is the same.
#![tactic(auto)]

mod bounds;
mod cap;
mod constraints;
pub mod laws;
mod noise;

pub use bounds::{BoundRoom, edge_bounds};
pub use cap::{cap_add, cap_mul};
pub use constraints::{
    Broken, Constraint, first_broken, has_boot, noise_constraints, size_constraint,
};

#[cfg(test)]
mod tests;
