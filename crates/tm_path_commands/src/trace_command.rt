// The command `trace`: the symbol phase, where it is to be found, and the windows of the soft decoder, a line each.
ghost use Rattle.std.specs.Prelude.{◌≡◌, true, OnErr, IfOk};
ghost use Rattle.tm_driver.specs.Answered.{AnsweredAlone};
ghost use Rattle.tm_driver.specs.Courses.{sink_call, source_call};
ghost use Rattle.tm_path_commands.specs.Trace.{trace_meaning};

use crate::tally::Tally;
use crate::window_lines::{block_text, trace_end_text};
use std::alloc::Global;
use tm_base::{NoMemory, Sink, Source, SureSink};
use tm_config::Config;
use tm_driver::{Ending, Outcome, Stage, TextTaker, drive_stage, phase_text};
use tm_inner::{InnerDecoder, WindowWatch, handed_law, watch_due, watch_last};

// A decoder whose phase and windows are reported, and the windows and bits that were.
#[derive(Drop)]
struct Tracing {
    inner: InnerDecoder,
    tally: Tally,
}

impl Stage for Tracing {
    ghost use Rattle.std.specs.Prelude.{◌≡◌, false};
    ghost use Rattle.tm_driver.specs.declared.ending.Outcome.TheVariants.{Done};
    ghost use Rattle.tm_path_commands.specs.Tracing.{Traces, TracesAll};

    ghost stands = { λ s t octets texts. Traces s.inner.config t.inner t.tally octets texts };

    ghost finished = { λ s t octets texts outcome. (outcome ≡ Done) × TracesAll s.inner.config octets texts };

    ghost is_ready = { λ t. t.inner.has_ended ≡ false };

    fn feed<W: TextTaker>(&mut self, piece: &[u8], texts: &mut W) -> bool {
        let mut lines = WindowLines {
            tally: self.tally,
            texts,
        };
        watch_due(&mut self.inner, piece, &mut lines);
        let WindowLines { tally, .. } = lines;
        self.tally = tally;
        true
    }

    fn finish<W: TextTaker>(&mut self, texts: &mut W) -> Outcome {
        let mut lines = WindowLines {
            tally: self.tally,
            texts,
        };
        let end = watch_last(&mut self.inner, &mut lines);
        let WindowLines { tally, .. } = lines;
        texts.out(trace_end_text(tally.blocks, end.bits, end.leftover).octets());
        Outcome::Done
    }
}

// Gives the lines of the phase and of windows, which it counts.
#[derive(Drop)]
struct WindowLines<'a, W> {
    tally: Tally,
    texts: &'a mut W,
}

impl<'a, W: TextTaker> WindowWatch for WindowLines<'a, W> {
    ghost use Rattle.tm_path_commands.specs.Tracing.{traced};

    ghost took = { λ a window b. Unit {0} };

    ghost told = { λ a item b. traced W.took a item b };

    fn phase(&mut self, skip: u8, cost: u64) {
        self.texts.out(phase_text(skip, cost).octets());
    }

    fn window(&mut self, inner: &InnerDecoder, index: usize) {
        let block = inner.block(index);
        self.texts.out(block_text(self.tally, &block).octets());
        self.tally = Tally {
            blocks: self.tally.blocks.saturating_add(1),
            bits: self.tally.bits.saturating_add(u64::from(block.kept)),
        };
    }
}

/// Writes a line for the symbol phase of the soft octets of the source, where it is to be found, and one for each
/// window, before which one more says where octets were dropped, up to the limit in octets, and at the end of the input
/// the end of the trace. After a fault nothing more is read or written. It takes all its memory before it reads.
pub fn trace<S: Source, O: Sink>(
    alloc: Global,
    config: &Config,
    source: &mut S,
    out: &mut O,
) -> Result<Ending, NoMemory>
    ensures answered { IfOk result (λ ending. AnsweredAlone true ending (trace_meaning config.now) config.now.limit
        (source_call S.Source source.old source.new) (sink_call O.Sink out.old out.new)) }
    ensures memory { OnErr result ((source.new ≡ source.old) × (out.new ≡ out.old)) }
{
    handed_law();
    let Ok(inner) = InnerDecoder::open(alloc, config, 1, 0) else {
        return Err(NoMemory);
    };
    let mut tracing = Tracing {
        inner,
        tally: Tally { blocks: 0, bits: 0 },
    };
    let mut notes = SureSink::new();
    Ok(drive_stage(config.limit(), source, &mut tracing, out, &mut notes))
}
