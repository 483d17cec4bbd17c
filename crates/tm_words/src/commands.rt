// The commands, and the command line, built for clap.
ghost use Rattle.std.specs.Prelude.{◌≡◌, [], map, IfOk, false};
ghost use Rattle.clap.specs.Words.{app_of, shape_of, rule_of};
ghost use Rattle.clap.specs.Simple.{on_top};
ghost use Rattle.clap.specs.declared.builder.command.Command.TheViews.{out-Command as fields_of};
ghost use Rattle.tm_words.specs.CommandLine.{option_rule, word_rule, with_options, plain_command, command_shape, with_commands, command_line, kind_among, kind_of_name};

use crate::options::{OPTIONS, OptionRow, SOAK_OPTIONS};
use clap::{Arg, ArgAction, Command};
use std::alloc::{AllocError, Global};

/// A command, and what it reads and writes: it takes the octets of a source, if it reads, and gives octets to an output
/// and to notes.
#[derive(Clone, Copy, Debug, PartialEq, Eq)]
pub enum JobKind {
    /// Sends transfer frames, as octets of marked codeblocks, or of their bits or symbols (CCSDS 131.0-B). An input
    /// that is not whole frames is partial: all is written for those that are, and the notes get the line `left over `
    /// with the number of octets after them.
    Encode,
    /// Receives such octets, a soft one for each symbol: the output gets the frame of each codeblock that is found and
    /// repaired, and the notes a report, which has a line for each codeblock and one for all, and before them one for
    /// the symbol phase where it is to be found; where it is followed, one before the last says how often octets were
    /// dropped. A codeblock with an uncorrectable column is bad.
    Decode,
    /// Does so without the frames, and writes the report to the output.
    Report,
    /// Writes a line for each window of the soft decoder, and one for all, and before them one for the symbol phase
    /// where it is to be found; where octets were dropped before a window, a line before its own.
    Trace,
    /// Repairs one word, which stands in its words in hexadecimal, and writes it: `fixed D HEX`, or `beyond`, which is
    /// bad. Nothing is read, and no notes are written.
    Word,
    /// Sends frames that it generates, changes some symbols of each codeword on the way, receives them, and writes the
    /// end of the report. A codeblock with an uncorrectable column is bad. Nothing is read, and no notes are written.
    Soak,
    /// Repairs words with erased symbols, each an octet a symbol and a flag for each after them, and writes a line for
    /// each: `fixed A B HEX`, or `beyond`, which is bad. An input that is not whole records is partial: all is written
    /// for those that are, and the notes get the line `left over ` with the number of octets after them.
    Erased,
    /// Writes a certificate of the windows of the soft decoder, which shows that no path costs less than theirs.
    Certify,
    /// Reads such a certificate, without the decoder: the output gets the soft octets of the windows that pass, and the
    /// notes a line for each, and one for all. A window that fails is bad: nothing more is read, and the notes get the
    /// line `bad ` with its number and the reason. A certificate that ends inside of a window or where one is missing
    /// is partial: the notes get the line `cut at block ` with its number.
    Check,
    /// Writes the received bits, eight an octet, and to the notes a line for the symbol phase where it is to be found,
    /// one that says how often octets were dropped where it is followed, and one for all.
    Bits,
}

static COMMANDS: [(&str, JobKind); 10] = [
    ("encode", JobKind::Encode),
    ("decode", JobKind::Decode),
    ("report", JobKind::Report),
    ("trace", JobKind::Trace),
    ("word", JobKind::Word),
    ("soak", JobKind::Soak),
    ("erased", JobKind::Erased),
    ("certify", JobKind::Certify),
    ("check", JobKind::Check),
    ("bits", JobKind::Bits),
];

// An option of one value.
fn option<'a>(alloc: Global, name: &'a str) -> Arg<'a>
    ensures rule { rule_of result ≡ option_rule name.entry.now }
    ensures local { result.global ≡ false }
{
    Arg::new(alloc, name).long(name).action(ArgAction::Set)
}

// A word that is required.
fn word<'a>(alloc: Global, name: &'a str) -> Arg<'a>
    ensures rule { rule_of result ≡ word_rule name.entry.now }
    ensures local { result.global ≡ false }
{
    Arg::new(alloc, name).required(true).action(ArgAction::Set)
}

// Adds options.
fn add_options<'a>(
    alloc: Global,
    command: Command<'a>,
    options: &'a [OptionRow<'a>],
) -> Result<Command<'a>, AllocError>
    requires { (fields_of command).has_globals ≡ false }
    ensures app { IfOk result (λ c. app_of c
        ≡ on_top (with_options (map (λ option. option.0.now) options.entry.now)) (app_of command.entry)) }
    ensures local { IfOk result (λ c. (fields_of c).has_globals ≡ false) }
{
    let mut command = command;
    for (name, _) in options {
        command = command.arg(option(alloc, *name))?;
    }
    Ok(command)
}

// A command with the options of every command.
fn plain_command<'a>(alloc: Global, name: &'a str) -> Result<Command<'a>, AllocError>
    ensures shape { IfOk result (λ c. shape_of c ≡ plain_command name.entry.now) }
    ensures local { IfOk result (λ c. (fields_of c).has_globals ≡ false) }
{
    add_options(alloc, Command::new(alloc, name), OPTIONS.as_slice())
}

// A command with the options and the word that it has.
fn command<'a>(alloc: Global, name: &'a str, kind: JobKind) -> Result<Command<'a>, AllocError>
    ensures shape { IfOk result (λ c. shape_of c ≡ command_shape name.entry.now kind) }
    ensures local { IfOk result (λ c. (fields_of c).has_globals ≡ false) }
{
    let plain = plain_command(alloc, name)?;
    match kind {
        JobKind::Word => plain.arg(word(alloc, "hex")),
        JobKind::Soak => add_options(alloc, plain, SOAK_OPTIONS.as_slice()),
        _ => Ok(plain),
    }
}

// The program's own level: a command is required, and there is no help or version.
fn program<'a>(alloc: Global) -> Command<'a>
    ensures app { app_of result ≡ with_commands [] }
    ensures local { (fields_of result).has_globals ≡ false }
{
    Command::new(alloc, "tmchan")
        .disable_help_flag(true)
        .disable_help_subcommand(true)
        .disable_version_flag(true)
        .subcommand_required(true)
}

// The program with these commands.
fn with_commands<'a>(
    alloc: Global,
    commands: &'a [(&'a str, JobKind)],
) -> Result<Command<'a>, AllocError>
    ensures app { IfOk result (λ c. app_of c ≡ with_commands
        (map (λ command. command_shape command.0.now command.1) commands.entry.now)) }
    ensures local { IfOk result (λ c. (fields_of c).has_globals ≡ false) }
{
    let mut line = program(alloc);
    for (name, kind) in commands {
        let command = command(alloc, *name, *kind)?;
        line = line.subcommand(command)?;
    }
    Ok(line)
}

/// The command line.
pub fn command_line<'a>(alloc: Global) -> Result<Command<'a>, AllocError>
    ensures app { IfOk result (λ c. app_of c ≡ command_line) }
{
    with_commands(alloc, COMMANDS.as_slice())
}

/// The command of a name that clap has taken.
pub fn kind_of_name(name: &str) -> JobKind
    ensures { result ≡ kind_of_name name.now }
{
    kind_among(COMMANDS.as_slice(), name)
}

fn kind_among(commands: &[(&str, JobKind)], name: &str) -> JobKind
    ensures { result ≡ kind_among (map (λ command. (command.0.now, command.1)) commands.now) name.now }
{
    for (command, kind) in commands {
        if name == *command {
            return *kind;
        }
    }
    JobKind::Encode
}
