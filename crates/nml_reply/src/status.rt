ghost use Rattle.std.specs.Prelude.{◌≡◌};
ghost use Rattle.nml_reply.specs.Status.{status_number};

/// How a call ends, numbered from 0 in this order. The numbers are this project's own.
#[derive(Clone, Copy, Debug, PartialEq, Eq)]
pub enum Status {
    /// The command did its work.
    Done,
    /// The words match no form.
    Usage,
    /// The description is refused.
    Description,
    /// The source text is refused.
    Source,
    /// The image is refused.
    Image,
    /// The description has no instructions for the source.
    NotClosed,
    /// The program or its data don't fit.
    Words,
    /// A file is absent, or its read failed.
    Read,
    /// A write of a file or of the text failed.
    Write,
    /// Want of memory.
    Memory,
    /// The run stopped with a code other than 0.
    Stopped,
    /// The run was still going on at its bound.
    Budget,
    /// The run wanted a number that the input doesn't have.
    Wants,
    /// The run came to a place without a word.
    NoWord,
    /// The run came to a word that is no instruction.
    BadWord,
    /// The input isn't a list of numbers of the port's type.
    Input,
    /// A file has too many bytes to be read.
    TooLong,
    /// The command, or the form of a file, isn't built yet.
    NotBuilt,
}

impl Status {
    /// The number that the process ends with, 0 to 17.
    pub fn number(self) -> u8
        ensures { result ≡ status_number self }
    {
        match self {
            Status::Done => 0,
            Status::Usage => 1,
            Status::Description => 2,
            Status::Source => 3,
            Status::Image => 4,
            Status::NotClosed => 5,
            Status::Words => 6,
            Status::Read => 7,
            Status::Write => 8,
            Status::Memory => 9,
            Status::Stopped => 10,
            Status::Budget => 11,
            Status::Wants => 12,
            Status::NoWord => 13,
            Status::BadWord => 14,
            Status::Input => 15,
            Status::TooLong => 16,
            Status::NotBuilt => 17,
        }
    }
}
