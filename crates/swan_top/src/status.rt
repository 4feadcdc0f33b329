// How a call ends.
ghost use Rattle.std.specs.Prelude.{◌≡◌};
ghost use Rattle.swan_top.specs.Codes.{code_of};

use crate::How;

/// How a call ends.
#[derive(Drop)]
pub enum Status {
    /// Both texts were written, and there is no fault.
    Done(How),
    /// Both texts were written, and the run had a fault.
    Faulted(How),
    /// The words are no command.
    Usage,
    /// The job has a fault.
    JobRefused,
    /// A file couldn't be read, or is too long.
    ReadFailed,
    /// A text couldn't be written whole.
    WriteFailed,
    /// Memory ran out before anything was written.
    NoMemory,
    /// The job can't begin with these inputs.
    InputRefused,
}

impl Status {
    /// The code that the program ends with, which is the same for either `How`. It takes no memory.
    pub fn code(&self) -> u8
        ensures { result ≡ code_of self.now }
    {
        match self {
            Status::Done(_) => 0,
            Status::Faulted(_) => 1,
            Status::Usage => 2,
            Status::JobRefused => 3,
            Status::ReadFailed => 4,
            Status::WriteFailed => 5,
            Status::NoMemory => 6,
            Status::InputRefused => 7,
        }
    }
}
