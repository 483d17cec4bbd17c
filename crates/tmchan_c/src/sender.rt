// The sender: frames in, symbols out.
ghost use Rattle.std.specs.Prelude.{◌≡◌, ◌++◌, ℕ, List, [], None, IfSome, IsSomeAnd, length, pos, true};
ghost use Rattle.std.specs.Option.{is_some};
ghost use Rattle.tm_base.specs.Pieces.{further};
ghost use Rattle.tm_codeblock.specs.Frames.{after_frames};
ghost use Rattle.tm_channel.specs.Sending.{SenderStandsFor};
ghost use Rattle.tm_channel.specs.Sent.{sent};
ghost use Rattle.tm_buffers.specs.Buffer.{Fills, has_room};
ghost use Rattle.tm_buffers.specs.Sending.{symbols_room};
ghost use Rattle.tmchan_c.specs.Options.{configuration};
ghost use Rattle.tmchan_c.specs.Refusal.{Refuses, config_refusal, number_answer};
ghost use Rattle.tmchan_c.specs.Streams.{AnswersNumber, Opens, closed_refusal, none_written, open_refusal, sender_in, sender_refusal, written_by};

use crate::config::config_of;
use crate::handle::{Handle, open, put, take, to_open};
use crate::refusal::{Refusal, number_answer};
use crate::stream::Stream;
use crate::written::{NOTHING, written_by};
use std::alloc::Global;
use tm_buffers::{Written, push_symbols, symbols_room};
use tm_channel::Sender;

/// Returns for how many symbols a push of `octets_length` octets needs room, one more than it writes at most; or the
/// reason of the refusal.
#[unsafe(no_mangle)]
pub extern "C" fn tmchan_sender_room(options: &[u64], octets_length: usize) -> i64
    ensures { result ≡ number_answer (config_refusal options.now)
        (symbols_room (configuration options.now) octets_length) }
{
    match config_of(options) {
        Err(refusal) => refusal.long_answer(),
        Ok(config) => number_answer(symbols_room(&config, octets_length)),
    }
}

/// Opens a sender. Returns 0, or the reason of the refusal.
#[unsafe(no_mangle)]
pub extern "C" fn tmchan_sender_open(alloc: Global, handle: &mut Handle, options: &[u64]) -> i32
    ensures refused { Refuses (open_refusal (is_some handle.old.kept.value) options.now) result
        (handle.new.kept.value ≡ handle.old.kept.value) }
    ensures opened { open_refusal (is_some handle.old.kept.value) options.now ≡ None
        → Opens result handle.new.kept.value (λ held. IsSomeAnd (sender_in held)
        (λ sender. (sender.config ≡ configuration options.now) × SenderStandsFor sender [])) }
{
    match to_open(handle, options) {
        Err(refusal) => refusal.answer(),
        Ok(config) => open(alloc, handle, Stream::Sender(Sender::new(config))),
    }
}

/// Takes the next octets of the frames, and writes the symbols of each frame that is whole now to the start of
/// `symbols`. Returns how many these are, as `written` says too, or the reason of the refusal.
#[unsafe(no_mangle)]
pub extern "C" fn tmchan_sender_push(
    alloc: Global,
    handle: &mut Handle,
    octets: &[u8],
    symbols: &mut [u8],
    written: &mut Written,
) -> i64
    ensures refused { Refuses (sender_refusal handle.old.kept.value (length octets.now) (length symbols.old)) result
        ((handle.new.kept.value ≡ handle.old.kept.value) × (symbols.new ≡ symbols.old)) }
    ensures pushed { IfSome (sender_in handle.old.kept.value) (λ sender. (given : List ℕ) → SenderStandsFor sender given
        → has_room (symbols_room sender.config (length octets.now)) (length symbols.old) ≡ true
        → IsSomeAnd (sender_in handle.new.kept.value) (λ now. (now.config ≡ sender.config)
        × SenderStandsFor now (given ++ octets.now))
        × AnswersNumber result (λ count. Fills count symbols.new (further (sent sender.config) given octets.now))) }
    ensures written { written.new ≡ written_by result }
{
    *written = NOTHING;
    let Some(mut stream) = take(alloc, handle) else {
        return Refusal::Closed.long_answer();
    };
    let answer = match &mut *stream {
        Stream::Sender(sender) => number_answer(push_symbols(sender, octets, symbols)),
        _ => Refusal::Closed.long_answer(),
    };
    *written = written_by(answer);
    put(handle, stream, answer)
}

/// Returns how many octets follow the last whole frame, and closes the sender; or returns the reason of the refusal. It
/// writes nothing, as `written` says.
#[unsafe(no_mangle)]
pub extern "C" fn tmchan_sender_finish(
    alloc: Global,
    handle: &mut Handle,
    written: &mut Written,
) -> i64
    ensures refused { Refuses (closed_refusal (sender_in handle.old.kept.value)) result
        (handle.new.kept.value ≡ handle.old.kept.value) }
    ensures finished { IfSome (sender_in handle.old.kept.value) (λ sender. (given : List ℕ)
        → SenderStandsFor sender given → (handle.new.kept.value ≡ None)
        × (result ≡ pos (length (after_frames sender.config.frame_length given)))) }
    ensures written { written.new ≡ none_written }
{
    *written = NOTHING;
    let Some(stream) = take(alloc, handle) else {
        return Refusal::Closed.long_answer();
    };
    match &*stream {
        Stream::Sender(sender) => {
            let count = sender.left_over();
            drop(stream);
            i64::from(count)
        }
        _ => put(handle, stream, Refusal::Closed.long_answer()),
    }
}
