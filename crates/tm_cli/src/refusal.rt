// Why the words are refused, and what they ask for.
ghost use Rattle.std.specs.Prelude.{◌≡◌, ◌≤◌, length, map, string_bytes, Some, None, OnOk, OnErr};
ghost use Rattle.tm_base.specs.Outside.{HasCause};
ghost use Rattle.tm_base.specs.Written.{Wrote, WrotePrefix};
ghost use Rattle.tm_cli.specs.Lines.{refusal_text};
ghost use Rattle.tm_config.specs.Configuration.{configuration_of, Configuration};
ghost use Rattle.tm_config.specs.Accepted.{IsAccepted};
ghost use Rattle.tm_words.specs.declared.job.Job.{Job};
ghost use Rattle.tm_cli.specs.Commands.{command_of};
ghost use Rattle.tm_cli.specs.Refusal.{reason_of, refusal_of, refusal_of_command, AreParsedAs};

use crate::soak_refusal::{SoakRefusal, test_soak};
use std::alloc::Global;
use tm_base::{Failed, Sink};
use tm_channel::{Config, ConfigError};
use tm_driver::Line;
use tm_records::{WordRefusal, test_word};
use tm_words::{Job, JobKind, WordsError, read_words};

/// Why the words are refused.
#[derive(Clone, Copy, Debug, PartialEq, Eq)]
pub enum Refusal {
    /// They are not a command with its options.
    Words,
    /// A value of the configuration is outside its list or range.
    Value(ConfigError),
    /// The word of `word` is none.
    OfWord(WordRefusal),
    /// A value that `soak` alone has is outside its range.
    OfSoak(SoakRefusal),
}

impl Refusal {
    /// The reason, as the line gives it.
    pub fn reason(self) -> &'static [u8]
        ensures text { result.now ≡ reason_of self }
        ensures length { length result.now ≤ 9 }
    {
        match self {
            Refusal::Words => b"words",
            Refusal::Value(error) => error.name().as_bytes(),
            Refusal::OfWord(refusal) => refusal.reason(),
            Refusal::OfSoak(refusal) => refusal.reason(),
        }
    }
}

/// What the words ask for, or why they are refused.
#[derive(Drop)]
pub enum Parsed {
    /// A command with the values of its options, and the configuration that these give.
    Command(Job, Config),
    /// The words are refused.
    Refused(Refusal),
    /// There was not enough memory to read them.
    NoMemory,
}

// Tests what a command alone has.
fn test_command(job: &Job, config: &Config) -> Option<Refusal>
    ensures { result ≡ refusal_of_command config.now (command_of job.now) }
{
    match job.kind {
        JobKind::Word => match test_word(config, job.hex.as_bytes()) {
            Some(refusal) => Some(Refusal::OfWord(refusal)),
            None => None,
        },
        JobKind::Soak => match test_soak(config, job.seed, job.frames, job.hits) {
            Some(refusal) => Some(Refusal::OfSoak(refusal)),
            None => None,
        },
        JobKind::Erased if config.values().code.is_uncoded() => Some(Refusal::Value(
            ConfigError::Code,
        )),
        JobKind::Check if config.values().inner.is_none() => Some(Refusal::Value(
            ConfigError::Inner,
        )),
        _ => None,
    }
}

/// Reads the words and tests the values that they give.
pub fn parse(alloc: Global, words: &[String]) -> Parsed
    ensures command { (job : Job) (config : Configuration) → result ≡ Parsed.Command job config
        → AreParsedAs (map string_bytes words.now) job × (configuration_of job.raw ≡ config) × IsAccepted config
        × (refusal_of_command config (command_of job) ≡ None) }
    ensures refused { (why : Refusal) → result ≡ Parsed.Refused why
        → refusal_of (map string_bytes words.now) ≡ Some why }
{
    let job = match read_words(alloc, words) {
        Ok(job) => job,
        Err(WordsError::Words) => return Parsed::Refused(Refusal::Words),
        Err(WordsError::Memory) => return Parsed::NoMemory,
    };
    let config = match Config::check(&job.raw) {
        Ok(config) => config,
        Err(error) => return Parsed::Refused(Refusal::Value(error)),
    };
    match test_command(&job, &config) {
        None => Parsed::Command(job, config),
        Some(why) => Parsed::Refused(why),
    }
}

/// Writes why the words are refused.
pub fn refusal_line<N: Sink>(notes: &mut N, why: Refusal) -> Result<(), Failed>
    ensures ok { OnOk result (Wrote (N.taken notes.old) (N.taken notes.new) (refusal_text (reason_of why))) }
    ensures err { OnErr result (WrotePrefix (N.taken notes.old) (N.taken notes.new) (refusal_text (reason_of why))) }
    ensures cause { HasCause (N.faults notes.old) (N.faults notes.new) (N.is_last notes.new) result }
{
    let mut line = Line::new();
    line.text(b"refused: ");
    line.text(why.reason());
    line.text(b"\n");
    line.put(notes)
}
