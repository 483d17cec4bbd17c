// The commands `decode` and `report`: received soft octets to frames and their report.
ghost use Rattle.std.specs.Prelude.{◌≡◌, true, IfOk, OnErr};
ghost use Rattle.tm_cli.specs.Decode.{decode_meaning, report_meaning};
ghost use Rattle.tm_driver.specs.Answered.{Answered, AnsweredAlone};
ghost use Rattle.tm_driver.specs.Courses.{sink_call, source_call};

use crate::counts::Counts;
use crate::receiving::{finish, receive};
use crate::reporting::{Reporting, end_report};
use std::alloc::Global;
use std::thread::Threads;
use tm_base::{NoMemory, Sink, Source, SureSink};
use tm_channel::{Config, Receiver, received_law};
use tm_driver::{Ending, Outcome, Stage, TextTaker, drive_stage};

// A receiver, its threads, and what is counted of the items that it has handed over.
#[derive(Drop)]
struct Decoding<'a, R> {
    rt: &'a R,
    receiver: Receiver,
    counts: Counts,
}

impl<'a, R: Threads + Sync> Stage for Decoding<'a, R> {
    ghost use Rattle.std.specs.Prelude.{◌≡◌, false};
    ghost use Rattle.std.specs.Thread.{IsSync};
    ghost use Rattle.tm_cli.specs.Receiving.{Decodes, DecodesAll, IsByAll};

    ghost stands = { λ s t octets texts. Decodes s.receiver.config t.receiver t.counts octets texts };

    ghost finished = { λ s t octets texts outcome. DecodesAll s.receiver.config octets texts outcome };

    ghost is_ready = { λ t. IsSync R.row × (t.receiver.has_stopped ≡ false) × IsByAll t.receiver };

    fn feed<W: TextTaker>(&mut self, piece: &[u8], texts: &mut W) -> bool {
        let mut reporting = Reporting {
            texts,
            counts: self.counts,
        };
        receive(self.rt, &mut self.receiver, piece, &mut reporting);
        let Reporting { texts: _, counts } = reporting;
        self.counts = counts;
        true
    }

    fn finish<W: TextTaker>(&mut self, texts: &mut W) -> Outcome {
        let mut reporting = Reporting {
            texts,
            counts: self.counts,
        };
        let totals = finish(self.rt, &mut self.receiver, &mut reporting);
        let Reporting { texts, counts } = reporting;
        end_report(texts, counts, totals)
    }
}

/// Writes the frame of each codeblock that is found in the soft octets of the source, up to the limit in octets, and
/// after it a line of the report on the notes; at the end of the input it writes the end of the report. Where the
/// symbol phase is to be found, its line comes first on the notes. `Bad` comes where a codeblock has an uncorrectable
/// column. After a fault nothing more is read or written. It takes all its memory before it reads.
pub fn decode<R: Threads + Sync, S: Source, O: Sink, N: Sink>(
    rt: &R,
    alloc: Global,
    config: &Config,
    source: &mut S,
    out: &mut O,
    notes: &mut N,
) -> Result<Ending, NoMemory>
    ensures answered { IfOk result (λ ending. Answered true ending (decode_meaning config.now) config.now.limit
        (source_call S.Source source.old source.new) (sink_call O.Sink out.old out.new)
        (sink_call N.Sink notes.old notes.new)) }
    ensures memory { OnErr result ((source.new ≡ source.old) × (out.new ≡ out.old) × (notes.new ≡ notes.old)) }
{
    received_law();
    let Ok(receiver) = Receiver::open(alloc, *config) else {
        return Err(NoMemory);
    };
    let mut decoding = Decoding {
        rt,
        receiver,
        counts: Counts::new(),
    };
    Ok(drive_stage(config.limit(), source, &mut decoding, out, notes))
}

/// Writes the report alone. Otherwise as `decode`.
pub fn report<R: Threads + Sync, S: Source, O: Sink>(
    rt: &R,
    alloc: Global,
    config: &Config,
    source: &mut S,
    out: &mut O,
) -> Result<Ending, NoMemory>
    ensures answered { IfOk result (λ ending. AnsweredAlone true ending (report_meaning config.now) config.now.limit
        (source_call S.Source source.old source.new) (sink_call O.Sink out.old out.new)) }
    ensures memory { OnErr result ((source.new ≡ source.old) × (out.new ≡ out.old)) }
{
    let mut frames = SureSink::new();
    decode(rt, alloc, config, source, &mut frames, out)
}
