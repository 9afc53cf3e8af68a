// How the program ends.
ghost use Rattle.std.specs.Prelude.{◌≡◌};

use std::process::ExitCode;

/// How the program ends.
#[derive(Clone, Copy, Debug, PartialEq, Eq)]
pub enum Status {
    /// The command did its work.
    Done,
    /// The image breaks a rule.
    Refused,
    /// The words are no command, or name a domain that the image lacks, or a guard where
    /// the image has several harts.
    Usage,
    /// The source failed.
    ReadFault,
    /// The sink failed.
    WriteFault,
    /// Memory ran out.
    Memory,
    /// The source gave more bytes than an image may have.
    TooLong,
}

impl Status {
    ghost use Rattle.tp_answer.specs.Status.{exit_number};
    ghost use Rattle.std.specs.Process.{exit_status};

    /// The exit code, 0 to 6.
    pub fn exit_code(self) -> ExitCode
        ensures number { exit_status result ≡ exit_number self }
    {
        ExitCode::from(match self {
            Status::Done => 0,
            Status::Refused => 1,
            Status::Usage => 2,
            Status::ReadFault => 3,
            Status::WriteFault => 4,
            Status::Memory => 5,
            Status::TooLong => 6,
        })
    }
}
