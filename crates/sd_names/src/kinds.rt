// The small choices that the texts beside volumes and domains record.

/// How a volume's file holds its bytes.
#[derive(Clone, Copy, Debug, PartialEq, Eq)]
pub enum Format {
    /// The bytes one after the other.
    Raw,
    /// A qcow2 layer.
    Cow,
}

/// Whether a volume's file was allocated whole.
#[derive(Clone, Copy, Debug, PartialEq, Eq)]
pub enum AllocKind {
    /// It grows as it is written.
    Sparse,
    /// It was allocated whole.
    Preallocated,
}

/// Whether a volume may be used.
#[derive(Clone, Copy, Debug, PartialEq, Eq)]
pub enum Legality {
    /// It may be used.
    Legal,
    /// It may not be used until a merge or a recovery has settled it.
    Illegal,
}

/// A volume's place in its image's chain.
#[derive(Clone, Copy, Debug, PartialEq, Eq)]
pub enum VolType {
    /// No volume names it as its parent.
    Leaf,
    /// Some volume names it as its parent.
    Internal,
}

/// A domain's part in its pool.
#[derive(Clone, Copy, Debug, PartialEq, Eq)]
pub enum Role {
    /// The domain that lists the others and keeps the tasks.
    Master,
    /// Any other domain.
    Regular,
}
