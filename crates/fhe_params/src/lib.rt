//! The parameters of a circuit: their limits, the table of all that may be chosen, what a choice costs, and reading
//! the table from its text.
#![tactic(auto)]

mod costs;
mod entries;
mod fault;
mod fields;
pub mod laws;
mod limits;
mod params;
mod reader;
mod table;

pub use costs::{cost, key_words};
pub use fault::{FieldName, ListName, TableFault, TableRefusal};
pub use limits::{
    MOST_BASE, MOST_DIGIT_BITS, MOST_DIMENSION, MOST_ENTRIES, MOST_ERROR, MOST_LOG_N,
    MOST_POLYNOMIALS, MOST_SMALL_DIMENSION, MOST_WEIGHT,
};
pub use params::{
    Gadget, GlweChoice, LweChoice, Params, dimension, is_gadget, is_glwe, is_lwe, is_params,
};
pub use reader::read_table;
pub use table::{Choice, CostWeights, Counts, Table};

#[cfg(test)]
mod tests;
