// The receiver: symbols in; frames and what is said of them out.
ghost use Rattle.std.specs.Prelude.{◌≡◌, ◌+◌, ◌*◌, ◌<◌, ◌<ℤ◌, ℕ, List, [], Option, None, IfSome, IsSomeAnd, length, pos};
ghost use Rattle.std.specs.Option.{is_some};
ghost use Rattle.tm_base.specs.Handed.{Handed};
ghost use Rattle.tm_viterbi.specs.WindowSizes.{stream_bound};
ghost use Rattle.tm_channel.specs.Items.{ItemValue};
ghost use Rattle.tm_channel.specs.OctetReceiving.{AreSlipsSoFar, OctetReceiving};
ghost use Rattle.tm_channel.specs.declared.totals.Totals.{Totals};
ghost use Rattle.tm_inner.specs.InnerWindows.{AreFurtherWindows, AreLastWindows};
ghost use Rattle.tm_inner.specs.Phase.{IsChosenSoFar};
ghost use Rattle.tm_buffers.specs.Receiving.{IsReceiving, Receives, ReceivesLast, WritesWindows, items_room};
ghost use Rattle.tmchan_c.specs.Options.{configuration};
ghost use Rattle.tmchan_c.specs.Refusal.{Refuses, config_refusal, number_answer};
ghost use Rattle.tmchan_c.specs.Streams.{AnswersNumber, Opens, chosen_of, closed_refusal, none_written, open_refusal, receiver_in, totals_state};

use crate::config::config_of;
use crate::handle::{Handle, open, put, take, to_open};
use crate::phase::{PhaseState, phase_state};
use crate::refusal::{Refusal, number_answer};
use crate::stream::Stream;
use crate::totals::{TotalsState, totals_state};
use crate::written::NOTHING;
use std::alloc::Global;
use tm_buffers::{BufferReceiver, Report, Window, Written, items_room};
use tm_channel::Totals;

/// Returns for how many reports a push of at most `octets_length` octets and the finish need room, whatever was pushed
/// before, and gives in `frames_length` for how many octets of frames; or returns the reason of the refusal.
#[unsafe(no_mangle)]
pub extern "C" fn tmchan_receiver_room(
    options: &[u64],
    octets_length: usize,
    frames_length: &mut u64,
) -> i64
    ensures answer { result ≡ number_answer (config_refusal options.now)
        (items_room (configuration options.now) octets_length) }
    ensures frames { (items : ℕ) → result ≡ pos items
        → frames_length.new ≡ items * (configuration options.now).frame_length }
    ensures unchanged { result <ℤ pos 0 → frames_length.new ≡ frames_length.old }
{
    match config_of(options) {
        Err(refusal) => refusal.long_answer(),
        Ok(config) => match items_room(&config, octets_length) {
            Some(items) => {
                *frames_length = items as u64 * config.length();
                items as i64
            }
            None => Refusal::Room.long_answer(),
        },
    }
}

/// Opens a receiver. Returns 0, or the reason of the refusal.
#[unsafe(no_mangle)]
pub extern "C" fn tmchan_receiver_open(alloc: Global, handle: &mut Handle, options: &[u64]) -> i32
    ensures refused { Refuses (open_refusal (is_some handle.old.kept.value) options.now) result
        (handle.new.kept.value ≡ handle.old.kept.value) }
    ensures opened { open_refusal (is_some handle.old.kept.value) options.now ≡ None
        → Opens result handle.new.kept.value (λ held. IsSomeAnd (receiver_in held)
        (λ receiver. (receiver.config ≡ configuration options.now) × IsReceiving receiver [] [])) }
{
    match to_open(handle, options) {
        Err(refusal) => refusal.answer(),
        Ok(config) => match BufferReceiver::open(alloc, config) {
            Ok(receiver) => open(alloc, handle, Stream::Receiver(receiver)),
            Err(_) => Refusal::Memory.answer(),
        },
    }
}

/// Takes the next octets, and writes the frames of the items that are due with them to the start of `frames`, and what
/// else is said of each to that of `reports`. Returns how many items these are, or the reason of the refusal; or that
/// there was not the room for all: those before the first one that did not fit are written then. `written` says how
/// much was.
#[unsafe(no_mangle)]
pub extern "C" fn tmchan_receiver_push(
    alloc: Global,
    handle: &mut Handle,
    octets: &[u8],
    frames: &mut [u8],
    reports: &mut [Report],
    written: &mut Written,
) -> i64
    ensures refused { Refuses (closed_refusal (receiver_in handle.old.kept.value)) result
        ((handle.new.kept.value ≡ handle.old.kept.value) × (frames.new ≡ frames.old) × (reports.new ≡ reports.old)
        × (written.new ≡ none_written)) }
    ensures pushed { IfSome (receiver_in handle.old.kept.value) (λ receiver. (given : List ℕ)
        (done : List (Handed ItemValue)) → IsReceiving receiver given done
        → length given + length octets.now < stream_bound
        → IsSomeAnd (receiver_in handle.new.kept.value) (λ now. (now.config ≡ receiver.config)
        × AnswersNumber result (λ count. Receives receiver now given octets.now done count frames.old frames.new
        reports.old reports.new written.new))) }
{
    *written = NOTHING;
    let Some(mut stream) = take(alloc, handle) else {
        return Refusal::Closed.long_answer();
    };
    match &mut *stream {
        Stream::Receiver(receiver) => {
            let count = receiver.feed(octets, frames, reports, written);
            put(handle, stream, number_answer(count))
        }
        _ => put(handle, stream, Refusal::Closed.long_answer()),
    }
}

/// Does what `tmchan_receiver_push` does, and writes the figures of the windows of the inner code that are decoded to
/// the start of `windows`. Where there is no room for all of them it returns that too, and those of the first ones are
/// written, as many as `written` says.
#[unsafe(no_mangle)]
pub extern "C" fn tmchan_receiver_push_windows(
    alloc: Global,
    handle: &mut Handle,
    octets: &[u8],
    frames: &mut [u8],
    reports: &mut [Report],
    windows: &mut [Window],
    written: &mut Written,
) -> i64
    ensures refused { Refuses (closed_refusal (receiver_in handle.old.kept.value)) result
        ((handle.new.kept.value ≡ handle.old.kept.value) × (frames.new ≡ frames.old) × (reports.new ≡ reports.old)
        × (windows.new ≡ windows.old) × (written.new ≡ none_written)) }
    ensures pushed { IfSome (receiver_in handle.old.kept.value) (λ receiver. (given : List ℕ)
        (done : List (Handed ItemValue)) → IsReceiving receiver given done
        → length given + length octets.now < stream_bound
        → IsSomeAnd (receiver_in handle.new.kept.value) (λ now. (now.config ≡ receiver.config)
        × AnswersNumber result (λ result. (count : Option ℕ) × Receives receiver now given octets.now done count
        frames.old frames.new reports.old reports.new (record written.new { windows = 0 })
        × WritesWindows (AreFurtherWindows receiver.config given octets.now) receiver.config (length octets.now)
        windows.old windows.new count result written.new))) }
{
    *written = NOTHING;
    let Some(mut stream) = take(alloc, handle) else {
        return Refusal::Closed.long_answer();
    };
    match &mut *stream {
        Stream::Receiver(receiver) => {
            let count = receiver.feed_windows(octets, frames, reports, windows, written);
            put(handle, stream, number_answer(count))
        }
        _ => put(handle, stream, Refusal::Closed.long_answer()),
    }
}

/// Writes what is left, gives what all octets came to and the symbol phase, and closes the receiver. Returns what
/// `tmchan_receiver_push` does.
#[unsafe(no_mangle)]
pub extern "C" fn tmchan_receiver_finish(
    alloc: Global,
    handle: &mut Handle,
    frames: &mut [u8],
    reports: &mut [Report],
    totals: &mut TotalsState,
    phase: &mut PhaseState,
    written: &mut Written,
) -> i64
    ensures refused { Refuses (closed_refusal (receiver_in handle.old.kept.value)) result
        ((handle.new.kept.value ≡ handle.old.kept.value) × (frames.new ≡ frames.old) × (reports.new ≡ reports.old)
        × (totals.new ≡ totals.old) × (phase.new ≡ phase.old) × (written.new ≡ none_written)) }
    ensures finished { IfSome (receiver_in handle.old.kept.value) (λ receiver. (given : List ℕ)
        (done : List (Handed ItemValue)) → IsReceiving receiver given done
        → (handle.new.kept.value ≡ None) × ((ended : OctetReceiving) × (chosen_of phase.new ≡ ended.stages.inner.chosen)
        × ((sums : Totals) × (totals.new ≡ totals_state sums)
        × AnswersNumber result (λ count. ReceivesLast receiver ended given done count sums frames.old frames.new
        reports.old reports.new written.new)))) }
{
    *written = NOTHING;
    let Some(mut stream) = take(alloc, handle) else {
        return Refusal::Closed.long_answer();
    };
    match &mut *stream {
        Stream::Receiver(receiver) => {
            let mut all = Totals {
                bits: 0,
                slips: None,
            };
            let count = receiver.finish(frames, reports, &mut all, written);
            *totals = totals_state(&all);
            *phase = phase_state(receiver.chosen());
            drop(stream);
            number_answer(count)
        }
        _ => put(handle, stream, Refusal::Closed.long_answer()),
    }
}

/// Does what `tmchan_receiver_finish` does, and writes the figures of the windows that are left, as
/// `tmchan_receiver_push_windows` does.
#[unsafe(no_mangle)]
pub extern "C" fn tmchan_receiver_finish_windows(
    alloc: Global,
    handle: &mut Handle,
    frames: &mut [u8],
    reports: &mut [Report],
    windows: &mut [Window],
    totals: &mut TotalsState,
    phase: &mut PhaseState,
    written: &mut Written,
) -> i64
    ensures refused { Refuses (closed_refusal (receiver_in handle.old.kept.value)) result
        ((handle.new.kept.value ≡ handle.old.kept.value) × (frames.new ≡ frames.old) × (reports.new ≡ reports.old)
        × (windows.new ≡ windows.old) × (totals.new ≡ totals.old) × (phase.new ≡ phase.old)
        × (written.new ≡ none_written)) }
    ensures finished { IfSome (receiver_in handle.old.kept.value) (λ receiver. (given : List ℕ)
        (done : List (Handed ItemValue)) → IsReceiving receiver given done
        → (handle.new.kept.value ≡ None) × ((ended : OctetReceiving) × (chosen_of phase.new ≡ ended.stages.inner.chosen)
        × ((sums : Totals) × (totals.new ≡ totals_state sums)
        × AnswersNumber result (λ result. (count : Option ℕ) × ReceivesLast receiver ended given done count sums
        frames.old frames.new reports.old reports.new (record written.new { windows = 0 })
        × WritesWindows (AreLastWindows receiver.config given) receiver.config 0 windows.old windows.new count result
        written.new)))) }
{
    *written = NOTHING;
    let Some(mut stream) = take(alloc, handle) else {
        return Refusal::Closed.long_answer();
    };
    match &mut *stream {
        Stream::Receiver(receiver) => {
            let mut all = Totals {
                bits: 0,
                slips: None,
            };
            let count = receiver.finish_windows(frames, reports, windows, &mut all, written);
            *totals = totals_state(&all);
            *phase = phase_state(receiver.chosen());
            drop(stream);
            number_answer(count)
        }
        _ => put(handle, stream, Refusal::Closed.long_answer()),
    }
}

/// Reports the symbol phase, where it was chosen so far. Returns 0, or the reason of the refusal.
#[unsafe(no_mangle)]
pub extern "C" fn tmchan_receiver_phase(
    alloc: Global,
    handle: &mut Handle,
    phase: &mut PhaseState,
) -> i32
    ensures same { handle.new.kept.value ≡ handle.old.kept.value }
    ensures refused { Refuses (closed_refusal (receiver_in handle.old.kept.value)) result (phase.new ≡ phase.old) }
    ensures reported { IfSome (receiver_in handle.old.kept.value) (λ receiver. (given : List ℕ)
        (done : List (Handed ItemValue)) → IsReceiving receiver given done
        → (result ≡ pos 0) × IsChosenSoFar receiver.config given (chosen_of phase.new)) }
{
    let Some(stream) = take(alloc, handle) else {
        return Refusal::Closed.answer();
    };
    match &*stream {
        Stream::Receiver(receiver) => {
            *phase = phase_state(receiver.chosen());
            put(handle, stream, 0)
        }
        _ => put(handle, stream, Refusal::Closed.answer()),
    }
}

/// Reports before how many windows of the inner code octets were dropped so far, of those whose bits were searched:
/// none where the symbol phase is not followed. Returns 0, or the reason of the refusal.
#[unsafe(no_mangle)]
pub extern "C" fn tmchan_receiver_slips(alloc: Global, handle: &mut Handle, count: &mut u64) -> i32
    ensures same { handle.new.kept.value ≡ handle.old.kept.value }
    ensures refused { Refuses (closed_refusal (receiver_in handle.old.kept.value)) result (count.new ≡ count.old) }
    ensures reported { IfSome (receiver_in handle.old.kept.value) (λ receiver. (given : List ℕ)
        (done : List (Handed ItemValue)) → IsReceiving receiver given done
        → (result ≡ pos 0) × AreSlipsSoFar receiver.config given done count.new) }
{
    let Some(stream) = take(alloc, handle) else {
        return Refusal::Closed.answer();
    };
    match &*stream {
        Stream::Receiver(receiver) => {
            *count = receiver.slips();
            put(handle, stream, 0)
        }
        _ => put(handle, stream, Refusal::Closed.answer()),
    }
}
