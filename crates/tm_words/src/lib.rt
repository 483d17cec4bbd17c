//! The words of the command line, read with `clap` by one definition of the program's commands and options. They give a
//! `Job`: the command with the values of its options as numbers, not tested yet. Where clap's rule for the command line
//! does not take the words, they are refused.
#![tactic(auto)]

mod commands;
mod job;
mod options;
mod read;

pub use commands::JobKind;
pub use job::{HexText, Job};
pub use read::{WordsError, read_words};
