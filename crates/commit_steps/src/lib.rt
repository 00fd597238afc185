//! What is known of an image while a cluster of one volume is committed to the one below it, from piece to piece: definitions, and
//! laws as functions without code.
#![tactic(auto)]

pub mod laws;
