// Which file of the system stands under a name.
ghost use Rattle.std.specs.Prelude.{◌≡◌, ◌↔◌, IfErr, IsTrue};
ghost use Rattle.kept_files.specs.Answers.{IsNoFile};
ghost use Rattle.kept_files.specs.Found.{found_node, found_stored};

use crate::files::answer_for;
use shared_disk::DiskAnswer;
use std::fs::{Files, Metadata};
use std::os::unix::fs::MetadataExt;

/// A file of the system, whatever its name is: its device, and its number there.
#[derive(Clone, Copy)]
pub struct Node {
    device: u64,
    number: u64,
}

impl Node {
    /// The file that the system tells this of.
    pub fn of(metadata: &Metadata) -> Node {
        Node {
            device: metadata.dev(),
            number: metadata.ino(),
        }
    }

    /// Whether the two are the same file.
    pub fn is(&self, other: &Node) -> bool
        ensures { IsTrue result ↔ (self.now ≡ other.now) }
    {
        self.device == other.device && self.number == other.number
    }
}

/// What was found under a name: a plain file, and how many bytes it has. Nothing but a look makes one.
#[derive(Clone, Copy)]
pub struct Found {
    pub(crate) node: Node,
    pub(crate) stored: u64,
}

impl Found {
    /// Which file of the system it is.
    pub fn node(&self) -> Node
        ensures { result ≡ found_node self.now }
    {
        self.node
    }

    /// How many bytes it has.
    pub fn stored(&self) -> u64
        ensures { result ≡ found_stored self.now }
    {
        self.stored
    }
}

/// Looks at a path, without opening what stands there and without following a link. Anything else than a plain file
/// is a fault.
pub fn look<R: Files>(rt: &R, path: &str) -> Result<Found, DiskAnswer>
    ensures answers { IfErr result IsNoFile }
{
    let metadata = rt.symlink_metadata(path).map_err(answer_for)?;
    if !metadata.is_file() {
        return Err(DiskAnswer::Failed);
    }
    Ok(Found {
        node: Node::of(&metadata),
        stored: metadata.len(),
    })
}
