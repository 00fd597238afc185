// The steps of a task.
use sd_names::{Bytes, Id};

/// What has to be done where a task was cut: taken back, or, by the steps whose names begin with Finish, brought to its
/// end.
#[derive(Debug, Drop)]
pub enum Undo {
    /// Removes an image with all its files, and empties its lease sector.
    RemoveImage {
        sd: Id,
        image: Id,
    },
    /// Removes a volume's files.
    RemoveVolume {
        sd: Id,
        image: Id,
        v: Id,
    },
    /// Makes a volume the leaf where no volume names it as its parent.
    SetLeaf {
        sd: Id,
        image: Id,
        v: Id,
    },
    /// Takes a domain from the pool's list.
    DropDomain {
        sd: Id,
    },
    /// Removes a volume's files, then makes `parent` the leaf where no volume names it as its parent.
    FinishDelete {
        sd: Id,
        image: Id,
        v: Id,
        parent: Id,
    },
    /// Moves an image among the removed ones, then removes it as `RemoveImage`.
    FinishRemove {
        sd: Id,
        image: Id,
    },
    /// Raises a volume's capacity, in bytes: a multiple of 512, 512 to 1 TiB.
    FinishExtend {
        sd: Id,
        image: Id,
        v: Id,
        capacity: u64,
    },
    /// Writes a volume's description. The word is the script's, of 1 to 200 bytes from `!` to `~`: `-` stands for the
    /// empty description.
    FinishDescribe {
        sd: Id,
        image: Id,
        v: Id,
        word: Bytes,
    },
}
