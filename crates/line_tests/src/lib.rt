//! Tests of the lines of scripts and of the replies to them.
#![tactic(auto)]

#[cfg(test)]
mod lines;
#[cfg(test)]
mod replies;
