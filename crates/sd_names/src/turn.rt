// What a step of a longer piece of work hands back, and the errors that say nothing more.
use crate::Refusal;
use thiserror::Error;

/// What one step leaves: more to do, the result, or a refusal with what is handed back.
#[derive(Drop)]
pub enum Turn<S, T, B> {
    /// The work isn't done; the next step goes on from here.
    More(S),
    /// The work is done.
    Done(T),
    /// The work ended by a refusal.
    Ended(B, Refusal),
}

/// A read or a write of a stream failed.
#[derive(Clone, Copy, Debug, PartialEq, Eq, Error)]
#[error("failed")]
pub struct Failed;

/// There was no memory.
#[derive(Clone, Copy, Debug, PartialEq, Eq, Error)]
#[error("out of memory")]
pub struct NoMemory;
