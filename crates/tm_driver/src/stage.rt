// What turns a stream of octets into texts, and the driver that feeds it.
ghost use Rattle.std.specs.Prelude.{◌≡◌, ℕ, ◌+◌, ◌≤◌, true, List, [], length, false, IsTrue};
ghost use Rattle.tm_base.specs.Limits.{most_limit};
ghost use Rattle.tm_base.specs.Takers.{HandedOver};
ghost use Rattle.tm_base.specs.Written.{Gave};
ghost use Rattle.tm_driver.specs.Courses.{SinksCourse, SourceCourse, sink_call, source_call};
ghost use Rattle.tm_driver.specs.Turns.{turn_size};
ghost use Rattle.tm_driver.specs.Meaning.{taken_by};
ghost use Rattle.tm_driver.specs.Staged.{Halts, StagedTo, Takes, TakesEnd};
ghost use Rattle.tm_driver.specs.Statuses.{is_sink_fault};
ghost use Rattle.tm_driver.specs.Writing.{FailsAmong, Text, Writes, WroteTexts};
ghost use Rattle.tm_driver.specs.declared.ending.Ending.TheVariants.{SinkFault};
ghost use Rattle.tm_driver.specs.declared.ending.Outcome.{Outcome};

use crate::ending::{Ending, Outcome};
use crate::text_taker::TextTaker;
use crate::writer::Writer;
use tm_base::{Failed, Sink, Source};

/// The most octets that a turn reads.
pub const TURN: usize = 4096;

/// Takes a stream of octets in pieces, and then its end, and gives texts as it goes. It never fails, and meets no
/// fault: the driver writes the texts.
pub trait Stage {
    /// Since the first value, which was new, the second was given exactly these octets, and has given exactly these
    /// texts.
    ghost stands: { Self → Self → List ℕ → List Text → Type 0 };

    /// The same, and it takes no more octets. Most stages never stop.
    ghost stopped: { Self → Self → List ℕ → List Text → Type 0 } = { λ s t octets texts. ⊥ };

    /// The same, and it was given the end, with this outcome.
    ghost finished: { Self → Self → List ℕ → List Text → Outcome → Type 0 };

    /// It may be fed.
    ghost is_ready: { Self → Type 0 };

    /// Takes the next octets, at most those of a turn. Returns whether it takes more.
    fn feed<W: TextTaker>(&mut self, piece: &[u8], texts: &mut W) -> bool
        requires ready { is_ready self.old }
        requires few { length piece.now ≤ turn_size }
        ensures ready { IsTrue result → is_ready self.new }
        ensures goes_on { IsTrue result → Takes W.took stands stands self.old self.new texts.old texts.new piece.now }
        ensures stops { result ≡ false → Takes W.took stands stopped self.old self.new texts.old texts.new piece.now };

    /// Takes the end of the stream.
    fn finish<W: TextTaker>(&mut self, texts: &mut W) -> Outcome
        requires ready { is_ready self.old }
        ensures { TakesEnd W.took stands finished self.old self.new texts.old texts.new result };
}

/// Feeds a stage that was given nothing yet what the source gives, up to `limit` octets, and its end, and writes the
/// texts that it gives. Each read asks for `TURN` octets, or for what is left up to the limit and one octet more, and
/// nothing is read after the end, after a fault, or once the stage has stopped. After a fault it writes nothing. Returns
/// how that ended.
pub fn drive_stage<S: Source, T: Stage, O: Sink, N: Sink>(
    limit: u64,
    source: &mut S,
    stage: &mut T,
    out: &mut O,
    notes: &mut N,
) -> Ending
    requires ready { T.is_ready stage.old }
    requires limit { limit ≤ most_limit }
    requires fresh { T.stands stage.old stage.old [] [] }
    ensures staged { (octets : List ℕ) × (texts : List Text) × Gave (S.given source.old) (S.given source.new)
        (S.left source.old) (S.left source.new) octets × (length octets ≤ limit + 1)
        × StagedTo (T.stands stage.old) (T.stopped stage.old) (T.finished stage.old) limit stage.new result octets texts
        × WroteTexts (is_sink_fault result) texts
        (taken_by (O.taken out.old) (O.taken out.new) (N.taken notes.old) (N.taken notes.new)) }
    ensures source { SourceCourse result limit (source_call S.Source source.old source.new) }
    ensures sinks { SinksCourse (is_sink_fault result) (sink_call O.Sink out.old out.new)
        (sink_call N.Sink notes.old notes.new) }
    ensures halts { result ≡ SinkFault → Halts (T.stands stage.old) (T.stopped stage.old) (T.finished stage.old)
        stage.new (S.ended source.new ≡ true) (S.ended source.new ≡ S.ended source.old)
        (λ fed last. FailsAmong fed last (sink_call O.Sink out.old out.new) (sink_call N.Sink notes.old notes.new)) }
{
    let mut writer = Writer {
        out,
        notes,
        has_failed: false,
    };
    let ending = drive_into(limit, source, stage, &mut writer);
    let Writer {
        out: _,
        notes: _,
        has_failed: _,
    } = writer;
    ending
}

// Does what `drive_stage` does, with a writer none of whose sinks has failed.
fn drive_into<S: Source, T: Stage, O: Sink, N: Sink>(
    limit: u64,
    source: &mut S,
    stage: &mut T,
    texts: &mut Writer<O, N>,
) -> Ending
    requires ready { T.is_ready stage.old }
    requires limit { limit ≤ most_limit }
    requires fresh { T.stands stage.old stage.old [] [] }
    requires going { texts.old.has_failed ≡ false }
    ensures staged { (octets : List ℕ) × (all : List Text) × Gave (S.given source.old) (S.given source.new)
        (S.left source.old) (S.left source.new) octets × (length octets ≤ limit + 1)
        × StagedTo (T.stands stage.old) (T.stopped stage.old) (T.finished stage.old) limit stage.new result octets all
        × HandedOver (Writes O.Sink N.Sink) texts.old all texts.new }
    ensures halts { result ≡ SinkFault → Halts (T.stands stage.old) (T.stopped stage.old) (T.finished stage.old)
        stage.new (S.ended source.new ≡ true) (S.ended source.new ≡ S.ended source.old)
        (λ fed last. (middle : _) × HandedOver (Writes O.Sink N.Sink) texts.old fed middle
        × (middle.has_failed ≡ false) × HandedOver (Writes O.Sink N.Sink) middle last texts.new) }
    ensures failed { texts.new.has_failed ≡ is_sink_fault result }
    ensures same { (texts.new.out.ghost_name ≡ texts.old.out.ghost_name)
        × (texts.new.notes.ghost_name ≡ texts.old.notes.ghost_name) }
    ensures source { SourceCourse result limit (source_call S.Source source.old source.new) }
{
    let mut buffer = [0; TURN];
    let mut room = limit + 1;
    while room > 0 {
        let most = room.min(TURN as u64) as usize;
        let turn = &mut buffer[..most];
        match source.read(turn) {
            Ok(0) => {
                let outcome = stage.finish(texts);
                if texts.has_failed {
                    return Ending::SinkFault;
                }
                return outcome.ending();
            }
            Ok(count) => {
                room -= count as u64;
                let kept = if room == 0 { count - 1 } else { count };
                let goes_on = stage.feed(&buffer[..kept], texts);
                if texts.has_failed {
                    return Ending::SinkFault;
                }
                if !goes_on {
                    return Ending::BadWindow;
                }
            }
            Err(Failed) => return Ending::SourceFault,
        }
    }
    Ending::PastLimit
}
