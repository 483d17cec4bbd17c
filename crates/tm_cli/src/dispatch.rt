// Does what a command asks for.
ghost use Rattle.std.specs.Prelude.{◌≡◌, false, None, IfOk, OnErr};
ghost use Rattle.tm_cli.specs.Commands.{command_of, has_notes, meaning_of, reads};
ghost use Rattle.tm_cli.specs.Refusal.{refusal_of_command};
ghost use Rattle.tm_driver.specs.Answered.{Answered};
ghost use Rattle.tm_driver.specs.Courses.{StopsAtSink, sink_call, source_call};

use crate::decode_command::{decode, report};
use crate::encode_command::encode;
use crate::soak_command::soak;
use std::alloc::Global;
use std::thread::Threads;
use tm_base::{NoMemory, Sink, Source};
use tm_channel::Config;
use tm_driver::Ending;
use tm_path_commands::{bits, certify, check, trace};
use tm_records::{erased, word};
use tm_words::{Job, JobKind};

/// Does what a command asks for, and returns how it ended. Where there is not enough memory, nothing is read or
/// written.
pub fn dispatch<R: Threads + Sync, S: Source, O: Sink, N: Sink>(
    rt: &R,
    alloc: Global,
    job: &Job,
    config: &Config,
    source: &mut S,
    out: &mut O,
    notes: &mut N,
) -> Result<Ending, NoMemory>
    requires { refusal_of_command config.now (command_of job.now) ≡ None }
    ensures answered { IfOk result (λ ending. Answered (reads (command_of job.now)) ending
        (meaning_of (command_of job.now) config.now) config.now.limit
        (source_call S.Source source.old source.new) (sink_call O.Sink out.old out.new)
        (sink_call N.Sink notes.old notes.new)) }
    ensures memory { OnErr result ((source.new ≡ source.old) × (out.new ≡ out.old) × (notes.new ≡ notes.old)) }
    ensures unread { reads (command_of job.now) ≡ false → source.new ≡ source.old }
    ensures unnoted { has_notes (command_of job.now) ≡ false → notes.new ≡ notes.old }
    ensures stops { job.now.kind ≡ JobKind.Encode → IfOk result (λ ending. ending ≡ Ending.SinkFault
        → StopsAtSink (source_call S.Source source.old source.new) (sink_call O.Sink out.old out.new)
        (sink_call N.Sink notes.old notes.new)) }
    ensures not_bad { job.now.kind ≡ JobKind.Check → IfOk result (λ ending. ending ≡ Ending.Bad → ⊥) }
{
    match job.kind {
        JobKind::Encode => Ok(encode(config, source, out, notes)),
        JobKind::Decode => decode(rt, alloc, config, source, out, notes),
        JobKind::Report => report(rt, alloc, config, source, out),
        JobKind::Trace => trace(alloc, config, source, out),
        JobKind::Word => Ok(word(config, job.hex.as_bytes(), out)),
        JobKind::Soak => soak(rt, alloc, config, job.seed, job.frames, job.hits, out),
        JobKind::Erased => erased(rt, alloc, config, source, out, notes),
        JobKind::Certify => certify(alloc, config, source, out),
        JobKind::Check => check(alloc, config, source, out, notes),
        JobKind::Bits => bits(alloc, config, source, out, notes),
    }
}
