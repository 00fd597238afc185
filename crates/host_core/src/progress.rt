// What a step of a host answers.
use sd_names::{Payload, Refusal};

/// The answer of a verb that has ended.
#[derive(Drop)]
pub enum Reply {
    /// The verb did its work.
    Ok(Payload),
    /// The verb was refused.
    Refused(Refusal),
}

/// What one step of a host comes to.
#[derive(Drop)]
pub enum Progress {
    /// The verb runs on.
    More,
    /// The verb has ended.
    Done(Reply),
}
