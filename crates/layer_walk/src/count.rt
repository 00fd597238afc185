// Which sector is wanted while counts are taken in.
ghost use Rattle.std.specs.Prelude.{◌^◌, ◌<◌};

/// The sector that the counts of the next clusters need.
#[derive(Clone, Copy, Debug)]
pub enum Count {
    /// That of the refcount table which begins with this entry.
    Row(u64),
    /// One of a refcount block.
    Block(Spot),
}

/// A sector of a refcount block.
#[derive(Clone, Copy, Debug)]
pub struct Spot {
    /// The entry of the refcount table that names the block, and where the block stands.
    pub entry: u64,
    pub place: u64,
    /// Which sector of the block it is.
    pub part: u64,
    /// The sector of the refcount table that has the entry.
    pub row: [u8; 512],
    pub ghost near: { entry < 2 ^ 43 },
    pub ghost low: { part < 2 ^ 12 },
}
