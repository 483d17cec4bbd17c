// Received octets in, frames and reports out into buffers.
ghost use Rattle.std.specs.Prelude.{◌≡◌, ℕ, ◌+◌, ◌^◌, ◌<◌, ◌≤◌, List, [], length, IfOk, IfSome, Option, None, if◌then◌else◌};
ghost use Rattle.tm_base.specs.Handed.{Handed};
ghost use Rattle.tm_base.specs.Takers.{HandedOver};
ghost use Rattle.tm_viterbi.specs.WindowSizes.{stream_bound};
ghost use Rattle.tm_config.specs.Accepted.{IsAccepted};
ghost use Rattle.tm_channel.specs.Items.{ItemValue};
ghost use Rattle.tm_channel.specs.Most.{most_bits, most_found};
ghost use Rattle.tm_channel.specs.OctetReceiving.{AreSlipsSoFar};
ghost use Rattle.tm_channel.specs.Receiving.{waiting_bits};
ghost use Rattle.tm_inner.specs.InnerDecoding.{HasWorkers};
ghost use Rattle.tm_inner.specs.InnerWindows.{AreFurtherWindows, AreLastWindows};
ghost use Rattle.tm_inner.specs.Phase.{IsChosenSoFar};
ghost use Rattle.tm_inner.specs.declared.window.Window.{Window};
ghost use Rattle.tm_buffers.specs.Receiving.{IsReceiving, Receives, ReceivesLast, WritesWindows, items_room};
ghost use Rattle.tm_buffers.specs.Buffer.{most_taken};

use crate::items::{BufferItems, Report, Written};
use crate::room::MOST;
use crate::windows::BufferWindows;
use std::alloc::Global;
use std::marker::Model;
use tm_base::NoMemory;
use tm_channel::{Receiver, Totals, decode_columns_alone, waiting_bits};
use tm_codeblock::{codeblock_size, columns_of};
use tm_config::Config;
use tm_inner::{NoWatch, Window, WindowWatch, held_bits};
use tm_windows::{Alone, Chosen};

/// A receiver whose items go to buffers. It starts no thread.
#[derive(Drop)]
pub struct BufferReceiver {
    receiver: Receiver,
}

impl Model for BufferReceiver {
    ghost use Rattle.std.specs.Prelude.{◌≡◌, false};
    ghost use Rattle.tm_channel.specs.OctetReceiving.{OctetReceiving};
    ghost use Rattle.tm_inner.specs.InnerWindows.{AreDecoded};

    ghost Value = { OctetReceiving };

    ghost view = { λ r. r.receiver };

    // So that the windows that were told are all that are due.
    ghost invariant = { λ r. r.receiver.has_stopped ≡ false → AreDecoded r.receiver.stages.inner };
}

impl BufferReceiver {
    /// A new receiver. It takes all its memory here, that of one window of the inner code at a time whatever the
    /// workers are, and fails only where there isn't enough.
    pub fn open(alloc: Global, config: Config) -> Result<BufferReceiver, NoMemory>
        ensures config { IfOk result (λ receiver. receiver.config ≡ config) }
        ensures fresh { IfOk result (λ receiver. IsReceiving receiver [] []) }
        ensures workers { IfOk result (λ receiver. HasWorkers 1 (waiting_bits config config.batch)
            receiver.stages.inner.queue) }
    {
        let receiver = Receiver::open_for(alloc, config, 1)?;
        Ok(BufferReceiver { receiver })
    }

    /// Takes the next octets, and writes the frames of the items that are due with them to the start of `frames`, one
    /// after the other, and what else is said of each to `reports`. Returns how many items these are; or None where
    /// there was no room for all: those before the first one that did not fit are written then, and it and all after it
    /// are lost. With the room that `items_room` returns there is room for all. What follows is as it was. `written`
    /// says how much was written, in either case.
    ///
    /// The octets given in all are to be below 2^60.
    pub fn feed(
        &mut self,
        octets: &[u8],
        frames: &mut [u8],
        reports: &mut [Report],
        written: &mut Written,
    ) -> Option<usize>
        ensures config { self.new.config ≡ self.old.config }
        ensures within { IfSome result (λ count. count ≤ length reports.old) }
        ensures received { (given : List ℕ) (done : List (Handed ItemValue))
            → length given + length octets.now < stream_bound
            → IsReceiving self.old given done
            → Receives self.old self.new given octets.now done result frames.old frames.new reports.old reports.new
            written.new }
    {
        self.take(octets, frames, reports, &mut NoWatch, written)
    }

    /// Does what `feed` does, and writes what is said of the windows of the inner code that are decoded to the start of
    /// `windows`. None comes too where there is no room for all of these: the first ones are written then, as many as
    /// there is room for. With the room that `windows_room` returns there is room for all.
    pub fn feed_windows(
        &mut self,
        octets: &[u8],
        frames: &mut [u8],
        reports: &mut [Report],
        windows: &mut [Window],
        written: &mut Written,
    ) -> Option<usize>
        ensures config { self.new.config ≡ self.old.config }
        ensures within { IfSome result (λ count. count ≤ length reports.old) }
        ensures received { (given : List ℕ) (done : List (Handed ItemValue))
            → length given + length octets.now < stream_bound
            → IsReceiving self.old given done
            → (count : Option ℕ) × Receives self.old self.new given octets.now done count frames.old frames.new
            reports.old reports.new (record written.new { windows = 0 })
            × WritesWindows (AreFurtherWindows self.old.config given octets.now) self.old.config (length octets.now)
            windows.old windows.new count result written.new }
    {
        let mut watch = BufferWindows::over(windows);
        let count = self.take(octets, frames, reports, &mut watch, written);
        written.windows = watch.count as u64;
        counted(count, watch.is_short)
    }

    // Takes the next octets, and writes the items that are due with them.
    fn take<W: WindowWatch>(
        &mut self,
        octets: &[u8],
        frames: &mut [u8],
        reports: &mut [Report],
        watch: &mut W,
        written: &mut Written,
    ) -> Option<usize>
        ensures config { self.new.config ≡ self.old.config }
        ensures within { IfSome result (λ count. count ≤ length reports.old) }
        ensures received { (given : List ℕ) (done : List (Handed ItemValue))
            → length given + length octets.now < stream_bound
            → IsReceiving self.old given done
            → Receives self.old self.new given octets.now done result frames.old frames.new reports.old reports.new
            written.new × ((windows : List Window) × HandedOver W.took watch.old windows watch.new
            × AreFurtherWindows self.old.config given octets.now windows) }
        ensures accepted { IsAccepted self.old.config }
    {
        let most = reports.len();
        let mut taker = BufferItems::over(frames, reports);
        let decoder = |config: &Config, words: &mut [_]| decode_columns_alone(config, words);
        let went = self
            .receiver
            .receive(&Alone, &decoder, octets, watch, &mut taker);
        *written = Written {
            reports: taker.count as u64,
            octets: taker.octets as u64,
            windows: 0,
        };
        if !went {
            return None;
        }
        counted(Some(taker.count.min(most)), taker.is_short)
    }

    /// Writes what is left, as `feed` does, and reports what all octets came to. It is called once, at the end of the
    /// octets.
    pub fn finish(
        &mut self,
        frames: &mut [u8],
        reports: &mut [Report],
        totals: &mut Totals,
        written: &mut Written,
    ) -> Option<usize>
        ensures config { self.new.config ≡ self.old.config }
        ensures within { IfSome result (λ count. count ≤ length reports.old) }
        ensures received { (given : List ℕ) (done : List (Handed ItemValue)) → IsReceiving self.old given done
            → ReceivesLast self.old self.new given done result totals.new frames.old frames.new reports.old reports.new
            written.new }
    {
        self.take_last(frames, reports, &mut NoWatch, totals, written)
    }

    /// Does what `finish` does, and writes what is said of the windows that are left, as `feed_windows` does.
    pub fn finish_windows(
        &mut self,
        frames: &mut [u8],
        reports: &mut [Report],
        windows: &mut [Window],
        totals: &mut Totals,
        written: &mut Written,
    ) -> Option<usize>
        ensures config { self.new.config ≡ self.old.config }
        ensures within { IfSome result (λ count. count ≤ length reports.old) }
        ensures received { (given : List ℕ) (done : List (Handed ItemValue)) → IsReceiving self.old given done
            → (count : Option ℕ) × ReceivesLast self.old self.new given done count totals.new frames.old frames.new
            reports.old reports.new (record written.new { windows = 0 })
            × WritesWindows (AreLastWindows self.old.config given) self.old.config 0 windows.old windows.new count
            result written.new }
    {
        let mut watch = BufferWindows::over(windows);
        let count = self.take_last(frames, reports, &mut watch, totals, written);
        written.windows = watch.count as u64;
        counted(count, watch.is_short)
    }

    // Writes the items that are left, and reports what all octets came to.
    fn take_last<W: WindowWatch>(
        &mut self,
        frames: &mut [u8],
        reports: &mut [Report],
        watch: &mut W,
        totals: &mut Totals,
        written: &mut Written,
    ) -> Option<usize>
        ensures config { self.new.config ≡ self.old.config }
        ensures within { IfSome result (λ count. count ≤ length reports.old) }
        ensures received { (given : List ℕ) (done : List (Handed ItemValue)) → IsReceiving self.old given done
            → ReceivesLast self.old self.new given done result totals.new frames.old frames.new reports.old reports.new
            written.new × ((windows : List Window) × HandedOver W.took watch.old windows watch.new
            × AreLastWindows self.old.config given windows) }
        ensures accepted { IsAccepted self.old.config }
    {
        let most = reports.len();
        let mut taker = BufferItems::over(frames, reports);
        let decoder = |config: &Config, words: &mut [_]| decode_columns_alone(config, words);
        let ended = self.receiver.end(&Alone, &decoder, watch, &mut taker);
        *written = Written {
            reports: taker.count as u64,
            octets: taker.octets as u64,
            windows: 0,
        };
        match ended {
            Some(received) => {
                *totals = received;
                counted(Some(taker.count.min(most)), taker.is_short)
            }
            None => None,
        }
    }

    /// The symbol phase that was chosen: None before the choice, and where the phase is given.
    pub fn chosen(&self) -> Option<Chosen>
        ensures value { result ≡ self.now.stages.inner.chosen }
        ensures so_far { (given : List ℕ) (done : List (Handed ItemValue)) → IsReceiving self.now given done
            → IsChosenSoFar self.now.config given result }
    {
        self.receiver.chosen()
    }

    /// Before how many windows of the inner code octets were dropped so far, of those whose bits were searched: none
    /// where the symbol phase is not followed.
    pub fn slips(&self) -> u64
        ensures { (given : List ℕ) (done : List (Handed ItemValue)) → IsReceiving self.now given done
            → AreSlipsSoFar self.now.config given done result }
    {
        self.receiver.slips()
    }
}

// How many items were written, where nothing was dropped.
fn counted(count: Option<usize>, is_short: bool) -> Option<usize>
    ensures { result ≡ (if is_short then None else count) }
{
    if is_short { None } else { count }
}

/// For how many items buffers have to have room where at most `count` more octets are given, and at the end, whatever
/// was given before: as many reports, and as many frames. None where `count` is above 2^40.
pub fn items_room(config: &Config, count: usize) -> Option<usize>
    ensures value { result ≡ items_room config.now count }
    ensures most { IfSome result (λ items. items ≤ 2 ^ 45) }
    ensures accepted { IsAccepted config.now }
{
    let batch = config.batch();
    if count > MOST {
        return None;
    }
    Some((most_found(config, most_bits(config, count as u64)) + batch) as usize)
}

// How many codeblocks come with `bits` bits at most, but for the one under way.
fn most_found(config: &Config, bits: u64) -> u64
    requires { bits ≤ 2 ^ 44 }
    ensures value { result ≡ most_found config.now bits }
    ensures most { result ≤ 2 ^ 44 + 2 ^ 18 }
{
    let unit = 32 + 8 * codeblock_size(config) as u64;
    let verify = config.verify();
    match columns_of(config) {
        None => bits / unit + verify,
        Some(columns) => {
            let reach = u64::from(columns.stride * columns.strength);
            2 * ((bits + verify * unit) / (unit - reach + 1) + 1)
        }
    }
}

// How many bits come of `count` octets at most.
fn most_bits(config: &Config, count: u64) -> u64
    requires { count ≤ most_taken }
    ensures value { result ≡ most_bits config.now count }
    ensures most { result ≤ 2 ^ 44 }
{
    if config.values().inner.is_some() {
        waiting_bits(config, config.batch()) + held_bits(config) + count
    } else if config.values().pack {
        8 * count
    } else {
        count
    }
}
