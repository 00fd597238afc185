//! That the links and the tables which a plan gives may be made in the layer: laws as functions without code.
#![tactic(auto)]

mod laws;

pub use laws::{links_of_a_plan_may_be_made, tables_of_a_plan_may_be_made};
