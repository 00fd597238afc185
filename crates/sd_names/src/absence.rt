// What a disk answers that shows that something has vanished.
ghost use Rattle.std.specs.Prelude.{◌≡◌, ◌≤◌, length};
ghost use Rattle.sd_names.specs.Fault.{absence_name};

/// What a disk call answered against what was known to be there.
#[derive(Clone, Copy, Debug, PartialEq, Eq)]
pub enum Absence {
    /// The file or folder isn't there.
    NoFile,
    /// The file or folder is there already.
    Exists,
    /// The range lies outside the file.
    OutOfFile,
    /// The folder has entries.
    NotEmpty,
}

impl Absence {
    /// The word in which a refusal prints the answer.
    pub fn name(&self) -> &'static str
        ensures name { result.now ≡ absence_name self.now }
        ensures short { length result.now ≤ 9 }
    {
        match self {
            Absence::NoFile => "NoFile",
            Absence::Exists => "Exists",
            Absence::OutOfFile => "OutOfFile",
            Absence::NotEmpty => "NotEmpty",
        }
    }
}
