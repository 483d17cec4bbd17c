// The command `check`: a certificate is read, and each of its windows is checked.
ghost use Rattle.std.specs.Prelude.{◌≡◌, ◌≢◌, [], true, None, OnErr, IfOk};
ghost use Rattle.tm_driver.specs.Answered.{Answered};
ghost use Rattle.tm_driver.specs.Courses.{sink_call, source_call};
ghost use Rattle.tm_driver.specs.Staged.{Takes};
ghost use Rattle.tm_cert_file.specs.Passes.{starts_by};
ghost use Rattle.tm_cert_file.specs.Reading.{HasPassed, IsOpen};
ghost use Rattle.tm_path_commands.specs.Check.{check_meaning};
ghost use Rattle.tm_path_commands.specs.Checking.{Checks, Passes};

use crate::tally::Tally;
use crate::window_lines::{bad_text, cut_text, trace_end_text, window_text};
use std::alloc::Global;
use tm_base::{NoMemory, Sink, Source};
use tm_cert_file::{Reader, Seen, read_law};
use tm_config::Config;
use tm_driver::{Ending, Outcome, Stage, TextTaker, drive_stage};
use tm_inner::{is_inverted, rate_of};
use tm_path_cert::Starts;
use tm_viterbi::Start;

// A certificate that is being read, and the windows that passed, with the steps that they keep.
#[derive(Drop)]
struct Checking {
    reader: Reader,
    tally: Tally,
}

impl Checking {
    // Gives the soft octets of the kept steps of the window that passed, and its line, counts it, and begins the next.
    fn give_window<W: TextTaker>(&mut self, texts: &mut W)
        requires { HasPassed self.old.reader }
        ensures open { IsOpen self.new.reader }
        ensures given { Takes W.took Passes Checks self.old self.new texts.old texts.new [] }
    {
        texts.out(self.reader.kept_octets());
        let line = window_text(
            self.tally.blocks,
            self.reader.steps(),
            self.reader.kept(),
            self.reader.metric(),
        );
        texts.note(line.octets());
        self.tally = Tally {
            blocks: self.tally.blocks.saturating_add(1),
            bits: self
                .tally
                .bits
                .saturating_add(u64::from(self.reader.kept())),
        };
        self.reader.next_window();
    }
}

impl Stage for Checking {
    ghost use Rattle.tm_cert_file.specs.Reading.{IsOpen};
    ghost use Rattle.tm_path_commands.specs.Checking.{Checks, EndsChecking, StopsChecking};

    ghost stands = { Checks };

    ghost stopped = { StopsChecking };

    ghost finished = { EndsChecking };

    ghost is_ready = { λ t. IsOpen t.reader };

    // Takes no more at the first window that fails, which the notes then say.
    fn feed<W: TextTaker>(&mut self, piece: &[u8], texts: &mut W) -> bool {
        read_law();
        let mut at = 0;
        while at < piece.len() {
            let (taken, seen) = self.reader.push(&piece[at..]);
            at += taken;
            match seen {
                Seen::More => {}
                Seen::Passed => self.give_window(texts),
                Seen::Failed(reason) => {
                    texts.note(bad_text(self.tally.blocks, reason).octets());
                    return false;
                }
            }
        }
        true
    }

    fn finish<W: TextTaker>(&mut self, texts: &mut W) -> Outcome {
        if self.reader.is_cut() {
            texts.note(cut_text(self.tally.blocks).octets());
            return Outcome::LeftOver;
        }
        texts.note(trace_end_text(self.tally.blocks, self.tally.bits, 0).octets());
        Outcome::Done
    }
}

// Where the first path may start.
fn first_starts(config: &Config) -> Starts
    ensures { result ≡ starts_by config.now.start }
{
    match config.values().start {
        Start::Zero => Starts::One(0),
        Start::Any => Starts::Any,
    }
}

/// Checks the certificate that the source gives, up to the limit in octets, as one of soft octets with this inner code,
/// start and windows. Of each window that passes it writes the soft octets of the kept steps to `out` and a line to
/// `notes`. The first that fails ends it (`BadWindow`): `notes` then get a line that says which and why, and nothing
/// more is read. At the end of the input `notes` get a line that says what the windows come to or, where the
/// certificate is not whole (`LeftOver`), which window is cut or missing. After a fault nothing more is read or
/// written. It takes all its memory before it reads.
pub fn check<S: Source, O: Sink, N: Sink>(
    alloc: Global,
    config: &Config,
    source: &mut S,
    out: &mut O,
    notes: &mut N,
) -> Result<Ending, NoMemory>
    requires { config.now.inner ≢ None }
    ensures answered { IfOk result (λ ending. Answered true ending (check_meaning config.now) config.now.limit
        (source_call S.Source source.old source.new) (sink_call O.Sink out.old out.new)
        (sink_call N.Sink notes.old notes.new)) }
    ensures memory { OnErr result ((source.new ≡ source.old) × (out.new ≡ out.old) × (notes.new ≡ notes.old)) }
    ensures not_bad { IfOk result (λ ending. ending ≡ Ending.Bad → ⊥) }
{
    read_law();
    let keep = config.keep() as u32;
    let ahead = config.ahead() as u32;
    let rate = rate_of(config).unwrap();
    let Ok(reader) = Reader::open(
        alloc,
        rate,
        is_inverted(rate, config.values().invert),
        first_starts(config),
        keep,
        ahead,
    ) else {
        return Err(NoMemory);
    };
    let mut checking = Checking {
        reader,
        tally: Tally { blocks: 0, bits: 0 },
    };
    Ok(drive_stage(config.limit(), source, &mut checking, out, notes))
}
