// The state of a task.

/// What has become of a task.
#[derive(Clone, Copy, Debug, PartialEq, Eq)]
pub enum TaskState {
    /// It is running, or has to be recovered.
    Open,
    /// Its changes were made.
    Done,
    /// Its changes were taken back.
    Undone,
}
