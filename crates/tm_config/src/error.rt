// Why a configuration is refused.
ghost use Rattle.std.specs.Prelude.{◌≡◌, ◌≤◌, length};
ghost use Rattle.tm_config.specs.Accepted.{name_of, place_of};

use thiserror::Error;

/// The option whose value is refused, in the order in which the values are tested. It is shown as the option's name.
#[derive(Clone, Copy, Debug, PartialEq, Eq, Error)]
#[error("{}", self.name())]
pub enum ConfigError {
    Code,
    Depth,
    Length,
    Inner,
    Switch,
    Basis,
    Tolerance,
    Repair,
    Soft,
    Start,
    Skip,
    Workers,
    Limit,
    Fly,
    Keep,
    Ahead,
    Phase,
    Polarity,
    Batch,
    Pack,
    Verify,
    Rescan,
    Bad,
}

impl ConfigError {
    /// The name of the option, or `switch` for the two that are on or off.
    pub fn name(self) -> &'static str
        ensures text { result.now ≡ name_of self }
        ensures short { length result.now ≤ 9 }
    {
        match self {
            ConfigError::Code => "code",
            ConfigError::Depth => "depth",
            ConfigError::Length => "length",
            ConfigError::Inner => "inner",
            ConfigError::Switch => "switch",
            ConfigError::Basis => "basis",
            ConfigError::Tolerance => "tolerance",
            ConfigError::Repair => "repair",
            ConfigError::Soft => "soft",
            ConfigError::Start => "start",
            ConfigError::Skip => "skip",
            ConfigError::Workers => "workers",
            ConfigError::Limit => "limit",
            ConfigError::Fly => "fly",
            ConfigError::Keep => "keep",
            ConfigError::Ahead => "ahead",
            ConfigError::Phase => "phase",
            ConfigError::Polarity => "polarity",
            ConfigError::Batch => "batch",
            ConfigError::Pack => "pack",
            ConfigError::Verify => "verify",
            ConfigError::Rescan => "rescan",
            ConfigError::Bad => "bad",
        }
    }

    /// The place of the option in the order of the tests, 0 for the first.
    pub fn place(self) -> u8
        ensures { result ≡ place_of self }
    {
        self as u8
    }
}
