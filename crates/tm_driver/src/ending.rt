// How a command ended.
ghost use Rattle.std.specs.Prelude.{◌≡◌};
ghost use Rattle.tm_driver.specs.Statuses.{ending_at_end, status_of};

/// How a command ended.
#[derive(Clone, Copy, Debug, PartialEq, Eq)]
pub enum Ending {
    /// The input, where the command has one, was read to its end, and all is written.
    Done,
    /// All is read and written as for `Done`, and a word, or a column of a codeblock that was received, is
    /// uncorrectable.
    Bad,
    /// A window of a certificate fails. What was written comes before it, and nothing more was read.
    BadWindow,
    /// All is written, but the input is not whole frames, or not whole records, or a certificate that is cut.
    LeftOver,
    /// The source failed.
    SourceFault,
    /// A sink failed.
    SinkFault,
    /// The source gave an octet past the limit.
    PastLimit,
}

impl Ending {
    /// The exit status.
    pub fn status(self) -> u8
        ensures { result ≡ status_of self }
    {
        match self {
            Ending::Done => 0,
            Ending::Bad => 1,
            Ending::BadWindow => 1,
            Ending::SourceFault => 3,
            Ending::SinkFault => 4,
            Ending::LeftOver => 6,
            Ending::PastLimit => 7,
        }
    }
}

/// What came of an input that was read to its end, where all is written.
#[derive(Clone, Copy, Debug, PartialEq, Eq)]
pub enum Outcome {
    /// The input is whole, and nothing in it is bad.
    Done,
    /// The input is whole, and something in it is uncorrectable.
    Bad,
    /// The input is not whole.
    LeftOver,
}

impl Outcome {
    /// How the command ended by it.
    pub fn ending(self) -> Ending
        ensures { result ≡ ending_at_end self }
    {
        match self {
            Outcome::Done => Ending::Done,
            Outcome::Bad => Ending::Bad,
            Outcome::LeftOver => Ending::LeftOver,
        }
    }
}
