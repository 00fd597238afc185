//! What a host that writes a layer knows of its file, and what its writes leave: definitions, and laws as functions without
//! code.
#![tactic(auto)]

pub mod laws;
