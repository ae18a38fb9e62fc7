//! How the program ends.

ghost use Rattle.std.specs.Prelude.{◌≡◌};
ghost use Rattle.venue_commands.specs.Codes.{status_code};

/// The status with which the program ends.
#[derive(Clone, Copy, Debug, PartialEq, Eq)]
pub enum Status {
    /// The command did what it is for.
    Done,
    /// The command's answer is no.
    Negative,
    /// The words or a file stop the command.
    Wrong,
    /// The outside failed.
    Fault,
    /// Memory ran out.
    Memory,
}

impl Status {
    /// The number with which the process ends, 0 to 4.
    pub fn code(self) -> u8
        ensures { result ≡ status_code self }
    {
        match self {
            Status::Done => 0,
            Status::Negative => 1,
            Status::Wrong => 2,
            Status::Fault => 3,
            Status::Memory => 4,
        }
    }
}
