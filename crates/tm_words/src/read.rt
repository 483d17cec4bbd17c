// Reads the words.
ghost use Rattle.std.specs.Prelude.{◌≡◌, ◌≢◌, map, string_bytes, IsErrOf, IfOk, OnOk, Some, true};
ghost use Rattle.clap.specs.Words.{subcommand_of, subcommand_rows_of, has_subcommand, kind_of, rows_of, found_of};
ghost use Rattle.tm_words.specs.CommandLine.{AreTaken, command_line};
ghost use Rattle.tm_words.specs.Job.{job_of, job_of_words};

use crate::commands::{JobKind, command_line, kind_of_name};
use crate::job::{HexText, Job};
use crate::options::{number_or, raw, text_or_empty};
use clap::ArgMatches;
use clap::error::ErrorKind;
use std::alloc::{AllocError, Global};
use thiserror::Error;

/// Why no job was read from the words.
#[derive(Clone, Copy, Debug, PartialEq, Eq, Error)]
pub enum WordsError {
    #[error("words")]
    Words,
    #[error("memory")]
    Memory,
}

// Out of memory, or the words.
fn refusal(error: &clap::Error) -> WordsError
    ensures { result ≡ WordsError.Words → kind_of error.now ≢ ErrorKind.OutOfMemory }
{
    match error.kind() {
        ErrorKind::OutOfMemory => WordsError::Memory,
        _ => WordsError::Words,
    }
}

// The matches of the words by the command line.
fn parse<'a>(alloc: Global, words: &'a [String]) -> Result<ArgMatches<'a>, WordsError>
    ensures refused { IsErrOf result WordsError.Words → AreTaken (map string_bytes words.entry.now) → ⊥ }
    ensures taken { OnOk result (AreTaken (map string_bytes words.entry.now)) }
    ensures matches { IfOk result (λ m. subcommand_rows_of m
        ≡ subcommand_of command_line (map string_bytes words.entry.now)) }
    ensures present { IfOk result (λ m. has_subcommand m ≡ true) }
{
    let command = match command_line(alloc) {
        Ok(command) => command,
        Err(_) => return Err(WordsError::Memory),
    };
    match command.try_get_matches_from(words) {
        Ok(matches) => Ok(matches),
        Err(error) => Err(refusal(&error)),
    }
}

// The job of a command with these matches. It fails only when out of memory.
fn job_of(alloc: Global, kind: JobKind, matches: &ArgMatches) -> Result<Job, AllocError>
    ensures { IfOk result (λ job. job ≡ job_of kind (rows_of (found_of matches.now))) }
{
    let mut job = Job {
        kind,
        raw: raw(matches),
        hex: HexText::empty(alloc),
        seed: 1,
        frames: 100,
        hits: 0,
    };
    match kind {
        JobKind::Word => job.hex = HexText::new(alloc, text_or_empty(matches, "hex"))?,
        JobKind::Soak => {
            job.seed = number_or(matches, "seed", job.seed);
            job.frames = number_or(matches, "frames", job.frames);
            job.hits = number_or(matches, "hits", job.hits);
        }
        _ => {}
    }
    Ok(job)
}

/// Reads the words of a command line, the first of which is the program's name and is not read.
///
/// `Words` comes exactly where clap's rule for the command line does not take the words (an empty list among them),
/// `Memory` only when out of memory. An option's text that is no number or none of its words is no refusal here: it
/// becomes 2^64 - 1, which is outside every list and range.
pub fn read_words(alloc: Global, words: &[String]) -> Result<Job, WordsError>
    ensures refused { IsErrOf result WordsError.Words → AreTaken (map string_bytes words.now) → ⊥ }
    ensures taken { OnOk result (AreTaken (map string_bytes words.now)) }
    ensures job { IfOk result (λ job. job_of_words (map string_bytes words.now) ≡ Some job) }
{
    match parse(alloc, words) {
        Ok(matches) => {
            let (name, options) = matches.subcommand().unwrap();
            match job_of(alloc, kind_of_name(name), options) {
                Ok(job) => Ok(job),
                Err(AllocError) => Err(WordsError::Memory),
            }
        }
        Err(error) => Err(error),
    }
}
