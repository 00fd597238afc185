// How a session ended.
ghost use Rattle.std.specs.Prelude.{◌≡◌};

/// How a session ended.
#[derive(Clone, Copy, Debug, PartialEq, Eq)]
pub enum Status {
    /// The input ended and no reply was a refusal.
    Done,
    /// The input ended and some reply was a refusal.
    Refused,
    /// The words aren't a command.
    Words,
    /// A read of the source failed.
    ReadFault,
    /// A write to the sink failed.
    WriteFault,
    /// The source gave more than 67,108,864 bytes.
    TooLong,
    /// There was no memory.
    Memory,
}

impl Status {
    ghost use Rattle.script_loop.specs.Status.{code_of};

    /// The code that the program ends with.
    pub fn code(&self) -> u8
        ensures { result ≡ code_of self.now }
    {
        match self {
            Status::Done => 0,
            Status::Refused => 1,
            Status::Words => 2,
            Status::ReadFault => 3,
            Status::WriteFault => 4,
            Status::TooLong => 5,
            Status::Memory => 6,
        }
    }
}
