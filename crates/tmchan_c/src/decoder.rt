// The soft decoder: soft octets in, bits out.
ghost use Rattle.std.specs.Prelude.{◌≡◌, ◌+◌, ◌<◌, ℕ, List, [], None, IfSome, IsSomeAnd, length, pos, true};
ghost use Rattle.std.specs.Option.{is_some};
ghost use Rattle.tm_base.specs.Handed.{Handed};
ghost use Rattle.tm_inner.specs.InnerDecoding.{InnerDecoding};
ghost use Rattle.tm_inner.specs.Phase.{IsChosenSoFar};
ghost use Rattle.tm_viterbi.specs.WindowBlock.{WindowBlock};
ghost use Rattle.tm_viterbi.specs.WindowSizes.{stream_bound};
ghost use Rattle.tm_buffers.specs.Buffer.{has_room};
ghost use Rattle.tm_buffers.specs.Decoding.{Decodes, DecodesLast, DecodesLastWindows, DecodesWindows, IsDecoding, bits_room};
ghost use Rattle.tm_buffers.specs.Windows.{windows_room};
ghost use Rattle.tmchan_c.specs.Options.{configuration};
ghost use Rattle.tmchan_c.specs.Refusal.{Refuses, config_refusal, number_answer};
ghost use Rattle.tmchan_c.specs.Streams.{AnswersNumber, Opens, chosen_of, closed_refusal, decoder_in, decoder_refusal, none_written, open_refusal, windows_refusal, written_by};

use crate::config::config_of;
use crate::handle::{Handle, open, put, take, to_open};
use crate::phase::{PhaseState, phase_state};
use crate::refusal::{Refusal, number_answer};
use crate::stream::Stream;
use crate::written::{NOTHING, written_by};
use std::alloc::Global;
use tm_buffers::{BufferDecoder, Window, Written, bits_room, windows_room};

/// Returns for how many bits a push of `octets_length` soft octets needs room, and, where that is 0, the finish; or the
/// reason of the refusal.
#[unsafe(no_mangle)]
pub extern "C" fn tmchan_decoder_room(options: &[u64], octets_length: usize) -> i64
    ensures { result ≡ number_answer (config_refusal options.now)
        (bits_room (configuration options.now) octets_length) }
{
    match config_of(options) {
        Err(refusal) => refusal.long_answer(),
        Ok(config) => number_answer(bits_room(&config, octets_length)),
    }
}

/// Returns for how many windows a push of at most `octets_length` octets and the finish need room, of a decoder or a
/// receiver, whatever was pushed before: none without an inner code; or the reason of the refusal.
#[unsafe(no_mangle)]
pub extern "C" fn tmchan_window_room(options: &[u64], octets_length: usize) -> i64
    ensures { result ≡ number_answer (config_refusal options.now)
        (windows_room (configuration options.now) octets_length) }
{
    match config_of(options) {
        Err(refusal) => refusal.long_answer(),
        Ok(config) => number_answer(windows_room(&config, octets_length)),
    }
}

/// Opens a decoder. Returns 0, or the reason of the refusal.
#[unsafe(no_mangle)]
pub extern "C" fn tmchan_decoder_open(alloc: Global, handle: &mut Handle, options: &[u64]) -> i32
    ensures refused { Refuses (open_refusal (is_some handle.old.kept.value) options.now) result
        (handle.new.kept.value ≡ handle.old.kept.value) }
    ensures opened { open_refusal (is_some handle.old.kept.value) options.now ≡ None
        → Opens result handle.new.kept.value (λ held. IsSomeAnd (decoder_in held)
        (λ decoder. (decoder.config ≡ configuration options.now) × IsDecoding decoder [] [])) }
{
    match to_open(handle, options) {
        Err(refusal) => refusal.answer(),
        Ok(config) => match BufferDecoder::open(alloc, config) {
            Ok(decoder) => open(alloc, handle, Stream::Decoder(decoder)),
            Err(_) => Refusal::Memory.answer(),
        },
    }
}

/// Takes the next soft octets, and writes the bits that are due with them to the start of `bits`. Returns how many
/// these are, as `written` says too, or the reason of the refusal.
#[unsafe(no_mangle)]
pub extern "C" fn tmchan_decoder_push(
    alloc: Global,
    handle: &mut Handle,
    octets: &[u8],
    bits: &mut [u8],
    written: &mut Written,
) -> i64
    ensures refused { Refuses (decoder_refusal handle.old.kept.value (length octets.now) (length bits.old)) result
        ((handle.new.kept.value ≡ handle.old.kept.value) × (bits.new ≡ bits.old)) }
    ensures pushed { IfSome (decoder_in handle.old.kept.value) (λ decoder. (given : List ℕ)
        (done : List (Handed WindowBlock)) → IsDecoding decoder given done
        → length given + length octets.now < stream_bound
        → has_room (bits_room decoder.config (length octets.now)) (length bits.old) ≡ true
        → IsSomeAnd (decoder_in handle.new.kept.value) (λ now. (now.config ≡ decoder.config)
        × AnswersNumber result (λ count. Decodes now given octets.now done count bits.new))) }
    ensures written { written.new ≡ written_by result }
{
    *written = NOTHING;
    let Some(mut stream) = take(alloc, handle) else {
        return Refusal::Closed.long_answer();
    };
    match &mut *stream {
        Stream::Decoder(decoder) => {
            let count = decoder.feed(octets, bits);
            let answer = number_answer(count);
            *written = written_by(answer);
            put(handle, stream, answer)
        }
        _ => put(handle, stream, Refusal::Closed.long_answer()),
    }
}

/// Does what `tmchan_decoder_push` does, and writes the figures of the windows that are decoded to the start of
/// `windows`, which is refused where it has less room than `tmchan_window_room` says. `written` says how many windows
/// these are.
#[unsafe(no_mangle)]
pub extern "C" fn tmchan_decoder_push_windows(
    alloc: Global,
    handle: &mut Handle,
    octets: &[u8],
    bits: &mut [u8],
    windows: &mut [Window],
    written: &mut Written,
) -> i64
    ensures refused { Refuses (windows_refusal handle.old.kept.value (length octets.now) (length bits.old)
        (length windows.old)) result ((handle.new.kept.value ≡ handle.old.kept.value) × (bits.new ≡ bits.old)
        × (windows.new ≡ windows.old) × (written.new ≡ none_written)) }
    ensures pushed { IfSome (decoder_in handle.old.kept.value) (λ decoder. (given : List ℕ)
        (done : List (Handed WindowBlock)) → IsDecoding decoder given done
        → length given + length octets.now < stream_bound
        → has_room (bits_room decoder.config (length octets.now)) (length bits.old) ≡ true
        → has_room (windows_room decoder.config (length octets.now)) (length windows.old) ≡ true
        → IsSomeAnd (decoder_in handle.new.kept.value) (λ now. (now.config ≡ decoder.config)
        × AnswersNumber result (λ count. Decodes now given octets.now done count bits.new
        × DecodesWindows decoder.config given octets.now windows.old windows.new count written.new))) }
{
    *written = NOTHING;
    let Some(mut stream) = take(alloc, handle) else {
        return Refusal::Closed.long_answer();
    };
    match &mut *stream {
        Stream::Decoder(decoder) => {
            let count = decoder.feed_windows(octets, bits, windows, written);
            put(handle, stream, number_answer(count))
        }
        _ => put(handle, stream, Refusal::Closed.long_answer()),
    }
}

/// Writes the bits that are left to the start of `bits`, gives the symbol phase, and closes the decoder. Returns how
/// many bits these are, as `written` says too, or the reason of the refusal.
#[unsafe(no_mangle)]
pub extern "C" fn tmchan_decoder_finish(
    alloc: Global,
    handle: &mut Handle,
    bits: &mut [u8],
    phase: &mut PhaseState,
    written: &mut Written,
) -> i64
    ensures refused { Refuses (decoder_refusal handle.old.kept.value 0 (length bits.old)) result
        ((handle.new.kept.value ≡ handle.old.kept.value) × (bits.new ≡ bits.old) × (phase.new ≡ phase.old)) }
    ensures finished { IfSome (decoder_in handle.old.kept.value) (λ decoder. (given : List ℕ)
        (done : List (Handed WindowBlock)) → IsDecoding decoder given done
        → has_room (bits_room decoder.config 0) (length bits.old) ≡ true
        → (handle.new.kept.value ≡ None) × ((ended : InnerDecoding) × (chosen_of phase.new ≡ ended.chosen)
        × AnswersNumber result (λ count. DecodesLast decoder ended given done count bits.new))) }
    ensures written { written.new ≡ written_by result }
{
    *written = NOTHING;
    let Some(mut stream) = take(alloc, handle) else {
        return Refusal::Closed.long_answer();
    };
    match &mut *stream {
        Stream::Decoder(decoder) => match decoder.finish(bits) {
            Some(count) => {
                *phase = phase_state(decoder.chosen());
                *written = written_by(count as i64);
                drop(stream);
                count as i64
            }
            None => put(handle, stream, Refusal::Room.long_answer()),
        },
        _ => put(handle, stream, Refusal::Closed.long_answer()),
    }
}

/// Does what `tmchan_decoder_finish` does, and writes the figures of the windows that are left, as
/// `tmchan_decoder_push_windows` does.
#[unsafe(no_mangle)]
pub extern "C" fn tmchan_decoder_finish_windows(
    alloc: Global,
    handle: &mut Handle,
    bits: &mut [u8],
    windows: &mut [Window],
    phase: &mut PhaseState,
    written: &mut Written,
) -> i64
    ensures refused { Refuses (windows_refusal handle.old.kept.value 0 (length bits.old) (length windows.old)) result
        ((handle.new.kept.value ≡ handle.old.kept.value) × (bits.new ≡ bits.old) × (windows.new ≡ windows.old)
        × (phase.new ≡ phase.old) × (written.new ≡ none_written)) }
    ensures finished { IfSome (decoder_in handle.old.kept.value) (λ decoder. (given : List ℕ)
        (done : List (Handed WindowBlock)) → IsDecoding decoder given done
        → has_room (bits_room decoder.config 0) (length bits.old) ≡ true
        → has_room (windows_room decoder.config 0) (length windows.old) ≡ true
        → (handle.new.kept.value ≡ None) × ((ended : InnerDecoding) × (chosen_of phase.new ≡ ended.chosen)
        × AnswersNumber result (λ count. DecodesLast decoder ended given done count bits.new
        × DecodesLastWindows decoder.config given windows.old windows.new count written.new))) }
{
    *written = NOTHING;
    let Some(mut stream) = take(alloc, handle) else {
        return Refusal::Closed.long_answer();
    };
    match &mut *stream {
        Stream::Decoder(decoder) => match decoder.finish_windows(bits, windows, written) {
            Some(count) => {
                *phase = phase_state(decoder.chosen());
                drop(stream);
                count as i64
            }
            None => put(handle, stream, Refusal::Room.long_answer()),
        },
        _ => put(handle, stream, Refusal::Closed.long_answer()),
    }
}

/// Reports the symbol phase, where it was chosen so far. Returns 0, or the reason of the refusal.
#[unsafe(no_mangle)]
pub extern "C" fn tmchan_decoder_phase(
    alloc: Global,
    handle: &mut Handle,
    phase: &mut PhaseState,
) -> i32
    ensures same { handle.new.kept.value ≡ handle.old.kept.value }
    ensures refused { Refuses (closed_refusal (decoder_in handle.old.kept.value)) result (phase.new ≡ phase.old) }
    ensures reported { IfSome (decoder_in handle.old.kept.value) (λ decoder. (given : List ℕ)
        (done : List (Handed WindowBlock)) → IsDecoding decoder given done
        → (result ≡ pos 0) × IsChosenSoFar decoder.config given (chosen_of phase.new)) }
{
    let Some(stream) = take(alloc, handle) else {
        return Refusal::Closed.answer();
    };
    match &*stream {
        Stream::Decoder(decoder) => {
            *phase = phase_state(decoder.chosen());
            put(handle, stream, 0)
        }
        _ => put(handle, stream, Refusal::Closed.answer()),
    }
}
