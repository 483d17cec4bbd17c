// Soft octets in, bits out into a buffer.
ghost use Rattle.std.specs.Prelude.{◌≡◌, ℕ, ◌+◌, ◌^◌, ◌<◌, ◌≤◌, ◌⊎◌, ◌++◌, List, [], length, None, true, false, IfOk, IfSome};
ghost use Rattle.tm_base.specs.Handed.{Handed};
ghost use Rattle.tm_base.specs.Takers.{HandedOver};
ghost use Rattle.tm_config.specs.Accepted.{IsAccepted};
ghost use Rattle.tm_inner.specs.Handing.{ReadsDue};
ghost use Rattle.tm_inner.specs.InnerDecoding.{HasWorkers};
ghost use Rattle.tm_inner.specs.InnerWindows.{AreTold, AreWindows};
ghost use Rattle.tm_inner.specs.Phase.{IsChosenSoFar};
ghost use Rattle.tm_inner.specs.Receiving.{Hands};
ghost use Rattle.tm_inner.specs.declared.window.Window.{Window};
ghost use Rattle.tm_viterbi.specs.WindowBlock.{WindowBlock};
ghost use Rattle.tm_viterbi.specs.WindowSizes.{stream_bound};
ghost use Rattle.tm_buffers.specs.Buffer.{has_room};
ghost use Rattle.tm_buffers.specs.Decoding.{Decodes, DecodesLast, DecodesLastWindows, DecodesWindows, IsDecoding, WritesLastBits, bits_at, bits_room, bits_written, keeps_handed};
ghost use Rattle.tm_buffers.specs.Windows.{windows_room};

use crate::bits::BufferBits;
use crate::items::Written;
use crate::room::{MOST, has_room, windows_room};
use crate::windows::BufferWindows;
use std::alloc::Global;
use std::marker::Model;
use tm_base::NoMemory;
use tm_config::Config;
use tm_inner::{InnerDecoder, NoWatch, Window, WindowWatch, held_bits, watch_due, watch_last};
use tm_windows::Chosen;

/// A decoder of the inner code whose bits go to a buffer.
#[derive(Drop)]
pub struct BufferDecoder {
    config: Config,
    inner: InnerDecoder,
    // `finish` was called.
    has_stopped: bool,
}

impl Model for BufferDecoder {
    ghost use Rattle.std.specs.Prelude.{◌≡◌};
    ghost use Rattle.tm_inner.specs.InnerDecoding.{InnerDecoding};

    ghost Value = { InnerDecoding };

    ghost view = { λ d. d.inner };

    ghost invariant = { λ d. (d.inner.config ≡ d.config) × (d.inner.has_ended ≡ d.has_stopped) };
}

impl BufferDecoder {
    /// A new decoder. It takes all its memory here, that of one window at a time whatever the workers are, and fails
    /// only where there isn't enough.
    pub fn open(alloc: Global, config: Config) -> Result<BufferDecoder, NoMemory>
        ensures config { IfOk result (λ decoder. decoder.config ≡ config) }
        ensures fresh { IfOk result (λ decoder. IsDecoding decoder [] []) }
        ensures workers { IfOk result (λ decoder. HasWorkers 1 0 decoder.queue) }
    {
        // So that the proof has the ranges of the configuration.
        let _keep = config.keep();
        let inner = InnerDecoder::open(alloc, &config, 1, 0)?;
        Ok(BufferDecoder {
            config,
            inner,
            has_stopped: false,
        })
    }

    /// Takes the next soft octets, and writes the bits that are due with them to the start of `bits`, an octet for
    /// each, 0 or 1. Returns how many these are; or None where `bits` has not the room, and takes nothing then. What
    /// follows the bits is left open.
    ///
    /// The octets given in all are to be below 2^60.
    pub fn feed(&mut self, octets: &[u8], bits: &mut [u8]) -> Option<usize>
        ensures config { self.new.config ≡ self.old.config }
        ensures within { IfSome result (λ count. count ≤ length bits.old) }
        ensures refused { has_room (bits_room self.old.config (length octets.now)) (length bits.old) ≡ false
            → (result ≡ None) × (self.new ≡ self.old) × (bits.new ≡ bits.old) }
        ensures decoded { (given : List ℕ) (done : List (Handed WindowBlock))
            → length given + length octets.now < stream_bound → IsDecoding self.old given done
            → has_room (bits_room self.old.config (length octets.now)) (length bits.old) ≡ true
            → Decodes self.new given octets.now done result bits.new }
    {
        if self.has_stopped || !has_room(bits_room(&self.config, octets.len()), bits.len()) {
            return None;
        }
        Some(decode_due(&mut self.inner, octets, bits, &mut NoWatch))
    }

    /// Does what `feed` does, and writes what is said of the windows that are decoded to the start of `windows`.
    /// `written` says how many bits and windows were written; None comes where either array has not the room too.
    pub fn feed_windows(
        &mut self,
        octets: &[u8],
        bits: &mut [u8],
        windows: &mut [Window],
        written: &mut Written,
    ) -> Option<usize>
        ensures config { self.new.config ≡ self.old.config }
        ensures within { IfSome result (λ count. count ≤ length bits.old) }
        ensures refused { has_room (bits_room self.old.config (length octets.now)) (length bits.old) ≡ false
            ⊎ (has_room (windows_room self.old.config (length octets.now)) (length windows.old) ≡ false)
            → (result ≡ None) × (self.new ≡ self.old) × (bits.new ≡ bits.old) × (windows.new ≡ windows.old)
            × (written.new ≡ bits_written 0 0) }
        ensures decoded { (given : List ℕ) (done : List (Handed WindowBlock))
            → length given + length octets.now < stream_bound → IsDecoding self.old given done
            → has_room (bits_room self.old.config (length octets.now)) (length bits.old) ≡ true
            → has_room (windows_room self.old.config (length octets.now)) (length windows.old) ≡ true
            → Decodes self.new given octets.now done result bits.new
            × DecodesWindows self.old.config given octets.now windows.old windows.new result written.new }
    {
        *written = bits_written(0, 0);
        let most = windows_room(&self.config, octets.len());
        if self.has_stopped
            || !has_room(bits_room(&self.config, octets.len()), bits.len())
            || !has_room(most, windows.len())
        {
            return None;
        }
        let mut watch = BufferWindows::over(windows);
        let count = decode_due(&mut self.inner, octets, bits, &mut watch);
        *written = bits_written(count, watch.count);
        Some(count)
    }

    /// Writes the bits that are left, as `feed` does. It is called once, at the end of the octets.
    pub fn finish(&mut self, bits: &mut [u8]) -> Option<usize>
        ensures config { self.new.config ≡ self.old.config }
        ensures within { IfSome result (λ count. count ≤ length bits.old) }
        ensures refused { has_room (bits_room self.old.config 0) (length bits.old) ≡ false
            → (result ≡ None) × (self.new ≡ self.old) × (bits.new ≡ bits.old) }
        ensures decoded { (given : List ℕ) (done : List (Handed WindowBlock)) → IsDecoding self.old given done
            → has_room (bits_room self.old.config 0) (length bits.old) ≡ true
            → DecodesLast self.old self.new given done result bits.new }
    {
        if self.has_stopped || !has_room(bits_room(&self.config, 0), bits.len()) {
            return None;
        }
        self.has_stopped = true;
        Some(end(&mut self.inner, bits, &mut NoWatch))
    }

    /// Does what `finish` does, and writes what is said of the windows that are left, as `feed_windows` does.
    pub fn finish_windows(
        &mut self,
        bits: &mut [u8],
        windows: &mut [Window],
        written: &mut Written,
    ) -> Option<usize>
        ensures config { self.new.config ≡ self.old.config }
        ensures within { IfSome result (λ count. count ≤ length bits.old) }
        ensures refused { has_room (bits_room self.old.config 0) (length bits.old) ≡ false
            ⊎ (has_room (windows_room self.old.config 0) (length windows.old) ≡ false)
            → (result ≡ None) × (self.new ≡ self.old) × (bits.new ≡ bits.old) × (windows.new ≡ windows.old)
            × (written.new ≡ bits_written 0 0) }
        ensures decoded { (given : List ℕ) (done : List (Handed WindowBlock)) → IsDecoding self.old given done
            → has_room (bits_room self.old.config 0) (length bits.old) ≡ true
            → has_room (windows_room self.old.config 0) (length windows.old) ≡ true
            → DecodesLast self.old self.new given done result bits.new
            × DecodesLastWindows self.old.config given windows.old windows.new result written.new }
    {
        *written = bits_written(0, 0);
        let most = windows_room(&self.config, 0);
        if self.has_stopped
            || !has_room(bits_room(&self.config, 0), bits.len())
            || !has_room(most, windows.len())
        {
            return None;
        }
        let mut watch = BufferWindows::over(windows);
        self.has_stopped = true;
        let count = end(&mut self.inner, bits, &mut watch);
        *written = bits_written(count, watch.count);
        Some(count)
    }

    /// The symbol phase that was chosen: None before the choice, and where the phase is given.
    pub fn chosen(&self) -> Option<Chosen>
        ensures value { result ≡ self.now.chosen }
        ensures so_far { (given : List ℕ) (done : List (Handed WindowBlock)) → IsDecoding self.now given done
            → IsChosenSoFar self.now.config given result }
    {
        self.inner.chosen()
    }
}

// Puts octets in, decodes all windows that are closed, and writes their bits, from the start on, as far as there is
// room. Returns how many.
fn decode_due<W: WindowWatch>(
    inner: &mut InnerDecoder,
    octets: &[u8],
    bits: &mut [u8],
    watch: &mut W,
) -> usize
    requires { 0 < length octets.now → inner.old.has_ended ≡ false }
    ensures within { (result ≤ length bits.old) × (length bits.new ≡ length bits.old) }
    ensures read { ReadsDue keeps_handed inner.old inner.new (bits_at 0 bits.old) (bits_at result bits.new) octets.now }
    ensures watched { Hands W.took AreTold inner.old inner.new watch.old watch.new octets.now }
{
    let mut written = BufferBits {
        bits,
        count: 0,
        watch,
    };
    watch_due(inner, octets, &mut written);
    let BufferBits { count, .. } = written;
    count
}

// Says that no octets come any more, and writes the bits that are left. Returns how many.
fn end<W: WindowWatch>(inner: &mut InnerDecoder, bits: &mut [u8], watch: &mut W) -> usize
    ensures kept { (inner.new.config ≡ inner.old.config) × (inner.new.has_ended ≡ true) }
    ensures within { (result ≤ length bits.old) × (length bits.new ≡ length bits.old) }
    ensures writes { WritesLastBits inner.old inner.new bits.old result bits.new }
    ensures watched { (last : List Window) × HandedOver W.took watch.old last watch.new
        × ((given : List ℕ) (done : List Window) → AreTold inner.old given done
        → AreWindows inner.old.config given (done ++ last)) }
{
    let mut written = BufferBits {
        bits,
        count: 0,
        watch,
    };
    watch_last(inner, &mut written);
    let BufferBits { count, .. } = written;
    count
}

// What is reported of this many bits and windows.
fn bits_written(bits: usize, windows: usize) -> Written
    ensures { result ≡ bits_written bits windows }
{
    Written {
        reports: 0,
        octets: bits as u64,
        windows: windows as u64,
    }
}

/// For how many bits a buffer has to have room where `count` more soft octets are given, or at the end, with a
/// `count` of 0. None where `count` is above 2^40: more octets are not taken at a time.
pub fn bits_room(config: &Config, count: usize) -> Option<usize>
    ensures value { result ≡ bits_room config.now count }
    ensures most { IfSome result (λ room. room ≤ 2 ^ 56) }
    ensures accepted { IsAccepted config.now }
{
    let held = held_bits(config) as usize;
    if count > MOST {
        return None;
    }
    Some(held + count)
}
