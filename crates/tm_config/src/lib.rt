//! The configuration of a link: the values of the options as numbers (`Raw`), the test that each is within its list or
//! range (`Config::check`), and what the layers above read of a configuration that passed (`Config`, and its `Values`).
//! The values are those of CCSDS 131.0-B where it has them: code, interleaving depth, frame length, rate of the inner
//! code.
#![tactic(auto)]

mod config;
mod error;
mod ranges;
mod values;

pub use config::Config;
pub use error::ConfigError;
pub use ranges::LONGEST_CODEBLOCK;
pub use values::{OuterCode, Raw, SoftForm, Sought, Values};
