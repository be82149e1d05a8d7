ghost use Rattle.std.specs.Prelude.{◌≡◌};
ghost use Rattle.nml_reply.specs.Reply.{stop_status};
ghost use Rattle.nml_reply.specs.Seen.{stop_of};

use crate::Status;

/// How a run of an image stopped, as far as it went. The form is this project's own.
#[derive(Clone, Copy, Debug)]
pub enum Stop {
    /// It was still going on at its bound.
    Running,
    /// It halted with this code.
    Halted(u8),
    /// It wanted a number that the input doesn't have.
    Wants,
    /// There is no word at this place.
    NoWord(u32),
    /// The word at this place is no instruction.
    BadWord(u32),
}

impl Stop {
    /// The status that the run ends with: `Done` where it halted with 0. The rule is this project's own.
    pub fn status(self) -> Status
        ensures { result ≡ stop_status (stop_of self) }
    {
        match self {
            Stop::Running => Status::Budget,
            Stop::Halted(0) => Status::Done,
            Stop::Halted(_) => Status::Stopped,
            Stop::Wants => Status::Wants,
            Stop::NoWord(_) => Status::NoWord,
            Stop::BadWord(_) => Status::BadWord,
        }
    }
}
