// The command `encode`: frames from a source to symbols on a sink.
ghost use Rattle.std.specs.Prelude.{◌≡◌, true};
ghost use Rattle.tm_cli.specs.Encode.{encode_meaning};
ghost use Rattle.tm_driver.specs.Answered.{Answered};
ghost use Rattle.tm_driver.specs.Courses.{StopsAtSink, sink_call, source_call};
ghost use Rattle.tm_driver.specs.declared.ending.Ending.TheVariants.{SinkFault};

use tm_base::{Sink, Source};
use tm_channel::{Config, ROOM, Sender};
use tm_driver::{Ending, Outcome, Stage, TextTaker, drive_stage, note_rest};

// The sender of the frames, and room for the symbols of a unit.
#[derive(Drop)]
struct Encoding {
    sender: Sender,
    room: [u8; ROOM],
}

impl Stage for Encoding {
    ghost use Rattle.std.specs.Prelude.{◌≡◌};
    ghost use Rattle.tm_config.specs.Accepted.{IsAccepted};
    ghost use Rattle.tm_cli.specs.Encode.{left_over};
    ghost use Rattle.tm_cli.specs.Encoding.{Encodes, EncodesAll};
    ghost use Rattle.tm_driver.specs.Lines.{outcome_by};

    ghost stands = { Encodes };

    ghost finished = { λ s t octets texts outcome. EncodesAll s.sender.config octets texts
        × (outcome ≡ outcome_by (left_over s.sender.config octets)) };

    ghost is_ready = { λ t. IsAccepted t.sender.config };

    fn feed<W: TextTaker>(&mut self, piece: &[u8], texts: &mut W) -> bool {
        let mut at = 0;
        while at < piece.len() {
            let (taken, made) = self.sender.symbols(&piece[at..], &mut self.room);
            texts.out(&self.room[..made]);
            at += taken;
        }
        true
    }

    fn finish<W: TextTaker>(&mut self, texts: &mut W) -> Outcome {
        note_rest(texts, self.sender.left_over())
    }
}

/// Sends the frames of the source, up to the limit in octets, and at the end of the input reports on the notes how many
/// octets are left over after the last whole frame. After a fault nothing more is read or written.
pub fn encode<S: Source, O: Sink, N: Sink>(
    config: &Config,
    source: &mut S,
    out: &mut O,
    notes: &mut N,
) -> Ending
    ensures answered { Answered true result (encode_meaning config.now) config.now.limit
        (source_call S.Source source.old source.new) (sink_call O.Sink out.old out.new)
        (sink_call N.Sink notes.old notes.new) }
    ensures stops { result ≡ SinkFault
        → StopsAtSink (source_call S.Source source.old source.new) (sink_call O.Sink out.old out.new)
        (sink_call N.Sink notes.old notes.new) }
{
    let mut encoding = Encoding {
        sender: Sender::new(*config),
        room: [0; ROOM],
    };
    drive_stage(config.limit(), source, &mut encoding, out, notes)
}
