// The verbs of a script, with their arguments, and what their replies carry.
use crate::{AllocKind, Answers, Format, HostId, Id, Tasks};

/// The verbs that run under a task.
#[derive(Clone, Copy, Debug, PartialEq, Eq)]
pub enum VerbName {
    /// `create`
    Create,
    /// `snapshot`
    Snapshot,
    /// `delete-volume`
    DeleteVolume,
    /// `delete-image`
    DeleteImage,
    /// `copy`
    Copy,
    /// `extend`
    Extend,
    /// `describe`
    Describe,
    /// `add-domain`
    AddDomain,
}

/// A verb with its arguments. A `text` is a description, empty for `-`; lengths and capacities are in bytes.
#[derive(Clone, Copy, Debug)]
pub enum Verb<'a> {
    /// Makes the domain `sd` as the master of the pool.
    MakePool {
        pool: Id,
        sd: Id,
        version: u8,
        text: &'a [u8],
    },
    /// Makes the host the storage pool manager.
    SpmStart {
        sd: Id,
        prev: u8,
        lver: u64,
    },
    /// Gives the role back.
    SpmStop,
    /// Adds a regular domain to the pool.
    AddDomain {
        task: Id,
        sd: Id,
        version: u8,
        text: &'a [u8],
    },
    /// Makes an image with one base volume.
    Create {
        task: Id,
        sd: Id,
        image: Id,
        v: Id,
        format: Format,
        kind: AllocKind,
        capacity: u64,
        text: &'a [u8],
    },
    /// Puts the layer `w` over the reading volume `v`; a capacity of 0 means that of `v`.
    Snapshot {
        task: Id,
        sd: Id,
        image: Id,
        v: Id,
        w: Id,
        capacity: u64,
        text: &'a [u8],
    },
    /// Deletes a volume.
    DeleteVolume {
        task: Id,
        sd: Id,
        image: Id,
        v: Id,
    },
    /// Deletes an image with all that its files hold.
    DeleteImage {
        task: Id,
        sd: Id,
        image: Id,
    },
    /// Copies what `v` reads as into the new base `w` of the new image `to_image`.
    Copy {
        task: Id,
        sd: Id,
        image: Id,
        v: Id,
        to_sd: Id,
        to_image: Id,
        w: Id,
        format: Format,
        kind: AllocKind,
    },
    /// Raises the reading volume's capacity.
    Extend {
        task: Id,
        sd: Id,
        image: Id,
        v: Id,
        capacity: u64,
    },
    /// Changes a volume's description.
    Describe {
        task: Id,
        sd: Id,
        image: Id,
        v: Id,
        text: &'a [u8],
    },
    /// Opens an image for its guest.
    Open {
        sd: Id,
        image: Id,
    },
    /// Closes an image.
    Close {
        sd: Id,
        image: Id,
    },
    /// Reads from the reading volume.
    Read {
        sd: Id,
        image: Id,
        at: u64,
        length: u32,
    },
    /// Writes to the reading volume.
    Write {
        sd: Id,
        image: Id,
        at: u64,
        bytes: &'a [u8],
    },
    /// Begins a cold merge of the top `w` into the base `v`.
    PrepareMerge {
        sd: Id,
        image: Id,
        v: Id,
        w: Id,
    },
    /// Writes what the top holds into the base.
    Merge {
        sd: Id,
        image: Id,
        v: Id,
        w: Id,
        generation: u16,
    },
    /// Takes the top out of the chain.
    FinalizeMerge {
        sd: Id,
        image: Id,
        v: Id,
        w: Id,
    },
    /// Begins a live merge of the top `w` into the base `v`.
    LiveStart {
        sd: Id,
        image: Id,
        v: Id,
        w: Id,
    },
    /// Moves the front of a live merge by `count` clusters of the top.
    LiveFill {
        sd: Id,
        image: Id,
        count: u64,
    },
    /// Makes the base of a live merge the legal one.
    LiveSync {
        sd: Id,
        image: Id,
    },
    /// Ends a live merge.
    LivePivot {
        sd: Id,
        image: Id,
    },
    /// Asks the manager to make a volume's file longer.
    BoxPost {
        sd: Id,
        image: Id,
        v: Id,
        length: u64,
        mark: u32,
    },
    /// Answers the box of a host.
    BoxServe {
        sd: Id,
        of: HostId,
    },
    /// Reports the answers that came.
    BoxCollect {
        sd: Id,
    },
    /// Lists the tasks.
    Tasks,
    /// Removes a task that is done.
    ClearTask {
        task: Id,
    },
    /// Recovers the open tasks.
    Recover,
}

/// What the reply of a verb carries behind `ok`.
#[derive(Drop)]
pub enum Payload {
    MakePool,
    /// The version of the role, which each start raises by one.
    SpmStart(u64),
    SpmStop,
    AddDomain,
    Create,
    Snapshot,
    DeleteVolume,
    DeleteImage,
    Copy,
    Extend,
    Describe,
    /// The reading volume, and its capacity in bytes.
    Open { reading: Id, capacity: u64 },
    Close,
    /// How many bytes were read, 512 to 65,536.
    Read { length: u32 },
    Write,
    PrepareMerge,
    /// The base's new generation, 0 to 999.
    Merge(u16),
    FinalizeMerge,
    /// The front and the end of the merge, in clusters of the top.
    LiveStart { front: u64, end: u64 },
    /// The front and the end of the merge, in clusters of the top.
    LiveFill { front: u64, end: u64 },
    /// The base's new generation, 0 to 999.
    LiveSync(u16),
    LivePivot,
    /// The slot of the message, 0 to 62.
    BoxPost(usize),
    /// How many requests were done, and how many failed.
    BoxServe { done: u8, fail: u8 },
    BoxCollect(Answers),
    Tasks(Tasks),
    ClearTask,
    /// How many tasks were open.
    Recover(u16),
}
