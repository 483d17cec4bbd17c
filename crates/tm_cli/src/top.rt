// The top call.
ghost use Rattle.std.specs.Prelude.{◌≡◌, ◌⊎◌, ◌≤◌, map, string_bytes, IsSome, false};
ghost use Rattle.tm_config.specs.Configuration.{configuration_of};
ghost use Rattle.tm_words.specs.declared.job.Job.{Job};
ghost use Rattle.tm_cli.specs.Commands.{command_of, has_notes, reads};
ghost use Rattle.tm_cli.specs.Refusal.{refusal_of, AreParsedAs};
ghost use Rattle.tm_cli.specs.Run.{Answers, IsRefused};
ghost use Rattle.tm_driver.specs.Courses.{sink_call, source_call};

use crate::dispatch::dispatch;
use crate::link::link_law;
use crate::refusal::{Parsed, parse, refusal_line};
use std::alloc::Global;
use std::thread::Threads;
use tm_base::{NoMemory, Sink, Source};
use tm_path_commands::certificate_law;

/// Runs the program: reads its words, the first of which is its name and is not looked at, and then does what they ask
/// for. `JobKind` (tm_words) lists the commands: what each writes to `out`, its output, and to the notes, what is bad,
/// and when the input is partial.
///
/// A command that reads asks at each read for 4,096 octets, or for what is left up to the limit and one octet more, and
/// reads nothing after the end of the input or a fault. That windows are decoded and words repaired by as many workers
/// as are asked for is tested, and no clause says it. Returns the exit status, of 3, 4 and 7 the one that occurs first:
///
/// - 0: the source was read to its end by a command that reads, and the whole output is written.
/// - 1: the same, and something is bad. Or the command ends at what is bad, fewer than 4,096 octets were read after it,
///   and all that is to be written up to there is.
/// - 2: the words are refused. Nothing is read, and `out` stays as it was; the notes get the line `refused: ` with the
///   first reason, or a prefix of it where they fail.
/// - 3: the source failed. What is due for the octets before is written, and nothing more.
/// - 4: `out` or `notes` failed, and nothing more is read or written. What was written is a prefix of the output.
/// - 5: there was not enough memory. Nothing is read or written.
/// - 6: the input is partial. All that is to be written for it is.
/// - 7: the source gave an octet past the limit. What is due for the octets up to the limit is written.
pub fn run<R: Threads + Sync, S: Source, O: Sink, N: Sink>(
    rt: &R,
    alloc: Global,
    words: &[String],
    source: &mut S,
    out: &mut O,
    notes: &mut N,
) -> u8
    ensures statuses { result ≤ 7 }

    // The words are refused.
    ensures refused { IsSome (refusal_of (map string_bytes words.now))
        → (result ≡ 2) ⊎ (result ≡ 5) }
    ensures refusal { result ≡ 2 → IsRefused (map string_bytes words.now)
        (sink_call N.Sink notes.old notes.new) }
    ensures unread { (result ≡ 2) ⊎ (result ≡ 5) → (source.new ≡ source.old) × (out.new ≡ out.old) }
    ensures memory { result ≡ 5 → notes.new ≡ notes.old }

    // They are accepted, and ask for a job.
    ensures answered { (job : Job) → AreParsedAs (map string_bytes words.now) job → (result ≡ 5 → ⊥)
        → Answers result (command_of job) (configuration_of job.raw) (record {
          source = source_call S.Source source.old source.new;
          out = sink_call O.Sink out.old out.new;
          notes = sink_call N.Sink notes.old notes.new;
        }) }
    ensures only_words { (job : Job) → AreParsedAs (map string_bytes words.now) job
        → reads (command_of job) ≡ false → source.new ≡ source.old }
    ensures only_output { (job : Job) → AreParsedAs (map string_bytes words.now) job
        → has_notes (command_of job) ≡ false → notes.new ≡ notes.old }
{
    link_law();
    certificate_law();
    match parse(alloc, words) {
        Parsed::Command(job, config) => match dispatch(
            rt, alloc, &job, &config, source, out, notes,
        ) {
            Ok(ending) => ending.status(),
            Err(NoMemory) => 5,
        },
        Parsed::Refused(why) => {
            let _ = refusal_line(notes, why);
            2
        }
        Parsed::NoMemory => 5,
    }
}
