// The verb that a host runs.
use sd_names::Id;

/// A verb that runs, and how far it is.
#[derive(Clone, Copy, Debug)]
pub enum Work {
    /// `spm-stop`: sector 0 is to be exchanged.
    Stop,
    /// `clear-task`: the file of this task is to be removed.
    Clear(Id),
    /// `tasks`: the tasks are to be listed.
    Tasks,
}
