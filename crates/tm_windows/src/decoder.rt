// The decoder: blocks of soft octets in pieces, handed over one after another.
ghost use Rattle.std.specs.Prelude.{◌≡◌, ◌≢◌, ◌↔◌, ◌⊎◌, ◌++◌, ◌∷◌, ℕ, ◌+◌, ◌<◌, ◌≤◌, IsTrue, List, [], true, false, IfOk, OnOk, OnErr, IsErrOf, Err, length};
ghost use Rattle.tm_base.specs.Calls.{taker_call};
ghost use Rattle.tm_base.specs.Outside.{HasCause, Rose};
ghost use Rattle.tm_base.specs.Takers.{HandedOver, HandedPart};
ghost use Rattle.tm_viterbi.specs.Blocks.{AreBlocksOf};
ghost use Rattle.tm_viterbi.specs.Due.{AreDue, AreFirst};
ghost use Rattle.tm_viterbi.specs.WindowBlock.{WindowBlock};
ghost use Rattle.tm_viterbi.specs.WindowSizes.{least_keep, most_keep, most_ahead, stream_bound};
ghost use Rattle.tm_windows.specs.Queue.{IsOpen, IsSameQueue, QueueStandsFor, reached};
ghost use Rattle.tm_windows.specs.Windows.{AreFirstIn};

use crate::crew::Alone;
use crate::queue::{QueueSettings, STREAM_BOUND, WindowQueue, counted};
use std::alloc::Global;
use std::marker::Model;
use thiserror::Error;
use tm_base::{Failed, NoMemory};
use tm_conv::Rate;
use tm_viterbi::{BlockTaker, Start, WindowShape};

/// Why a call of a decoder was refused.
#[derive(Clone, Copy, Debug, PartialEq, Eq, Error)]
pub enum FeedError {
    /// The taker of the blocks failed.
    #[error("taker")]
    Taker,
    /// An earlier call returned `Taker`, or `finish` was called.
    #[error("stopped")]
    Stopped,
}

/// Why octets were not decoded at once.
#[derive(Clone, Copy, Debug, PartialEq, Eq, Error)]
pub enum AllError {
    /// There was not enough memory; nothing was handed over.
    #[error("memory")]
    Memory,
    /// The taker of the blocks failed.
    #[error("taker")]
    Taker,
}

/// The soft decoder (CCSDS 131.0-B, Convolutional Coding), fed in pieces of soft octets, of which 0 is the surest 0 and
/// 255 the surest 1. It takes all its memory at `open`.
#[derive(Drop)]
pub struct Decoder {
    queue: WindowQueue,
    // The octets given.
    count: u64,
    has_stopped: bool,
}

impl Model for Decoder {
    ghost use Rattle.std.specs.Prelude.{◌≡◌, ◌≤◌, ◌<◌, false};
    ghost use Rattle.tm_viterbi.specs.WindowSizes.{stream_bound};
    ghost use Rattle.tm_windows.specs.Decoding.{Decoding};
    ghost use Rattle.tm_windows.specs.Queue.{IsOpen, reached};

    ghost Value = { Decoding };

    ghost view = { λ d. record {
      settings = d.queue.windows.settings;
      has_stopped = d.has_stopped;
      count = d.count;
      queue = d.queue;
    } };

    ghost invariant = { λ d. (reached d.queue ≤ d.count) × (d.count < stream_bound)
        × (d.queue.find ≡ false) × (d.queue.has_ended ≡ false) × (d.has_stopped ≡ false → IsOpen d.queue) };
}

impl Decoder {
    ghost use Rattle.tm_windows.specs.Decoding.{Calls, DecoderStandsFor};

    /// A new decoder for windows of `keep` steps, 64 to 65,536, and `ahead` more, at most 4,096. Where `invert` is set
    /// each second sum was sent inverted. Of each window but the last `keep` steps are kept. It fails only where there
    /// isn't enough memory.
    pub fn open(
        alloc: Global,
        rate: Rate,
        invert: bool,
        start: Start,
        keep: u32,
        ahead: u32,
    ) -> Result<Decoder, NoMemory>
        requires keep { (least_keep ≤ keep) × (keep ≤ most_keep) }
        requires ahead { ahead ≤ most_ahead }
        ensures settings { IfOk result (λ d. d.settings
            ≡ record { rate = rate; invert = invert; start = start; keep = keep; ahead = ahead }) }
        ensures fresh { IfOk result (λ d. d.has_stopped ≡ false) }
        ensures stands { IfOk result (λ d. DecoderStandsFor d [] []) }
    {
        let shape = WindowShape {
            rate,
            invert,
            keep: keep as usize,
            ahead: ahead as usize,
        };
        let settings = QueueSettings {
            shape,
            start,
            find: false,
            follow: false,
        };
        let queue = WindowQueue::open(alloc, settings, 1, 0)?;
        Ok(Decoder {
            queue,
            count: 0,
            has_stopped: false,
        })
    }

    /// Takes the next soft octets, and hands over the blocks of the windows that are closed by them: a window is closed
    /// once the step after it is whole.
    ///
    /// `Taker` comes where `blocks` fails; a prefix of the blocks was then handed over. `Stopped` comes where an
    /// earlier call returned `Taker` or `finish` was called; nothing is handed over then.
    ///
    /// The octets given in all are to be below 2^60.
    pub fn feed<B: BlockTaker>(&mut self, piece: &[u8], blocks: &mut B) -> Result<(), FeedError>
        ensures call { Calls self.old self.new
            (taker_call B.took B.broke B.faults B.is_last blocks.old blocks.new) result }
        ensures stops { IsTrue self.new.has_stopped ↔ OnOk result ⊥ }
        ensures settings { self.new.settings ≡ self.old.settings }
        ensures handed { OnOk result ((more : List WindowBlock) × HandedOver B.took blocks.old more blocks.new
            × ((given : List ℕ) (done : List WindowBlock) → length given + length piece.now < stream_bound
            → DecoderStandsFor self.old given done
            → DecoderStandsFor self.new (given ++ piece.now) (done ++ more)
            × AreDue self.old.settings (given ++ piece.now) (done ++ more))) }
        ensures prefix { IsErrOf result FeedError.Taker → (tried : List WindowBlock)
            × HandedPart B.took B.broke blocks.old tried blocks.new
            × ((given : List ℕ) (done : List WindowBlock) → DecoderStandsFor self.old given done
            → AreFirst self.old.settings (given ++ piece.now) (done ++ tried)) }
    {
        if self.has_stopped {
            return Err(FeedError::Stopped);
        }
        let piece = counted(self.count, piece);
        self.count += piece.len() as u64;
        match take(&mut self.queue, piece, blocks) {
            Ok(()) => Ok(()),
            Err(Failed) => {
                self.has_stopped = true;
                Err(FeedError::Taker)
            }
        }
    }

    /// Hands over the block of the last window, where a step is left for it, and returns how many octets are left over
    /// after the last whole step: none or one. It is called once, at the end of the stream.
    ///
    /// `Taker` comes where `blocks` fails. `Stopped` comes where an earlier call returned `Taker` or `finish` was
    /// called; nothing is handed over then.
    pub fn finish<B: BlockTaker>(&mut self, blocks: &mut B) -> Result<u8, FeedError>
        ensures call { Calls self.old self.new
            (taker_call B.took B.broke B.faults B.is_last blocks.old blocks.new) result }
        ensures stops { self.new.has_stopped ≡ true }
        ensures settings { self.new.settings ≡ self.old.settings }
        ensures handed { IfOk result (λ left. (last : List WindowBlock) × HandedOver B.took blocks.old last blocks.new
            × ((given : List ℕ) (done : List WindowBlock) → DecoderStandsFor self.old given done
            → AreBlocksOf self.old.settings given (done ++ last) left)) }
        ensures prefix { IsErrOf result FeedError.Taker → (last : WindowBlock) × B.broke blocks.old last blocks.new
            × ((given : List ℕ) (done : List WindowBlock) → DecoderStandsFor self.old given done → (left : ℕ)
            × AreBlocksOf self.old.settings given (done ++ last ∷ []) left) }
        ensures left { IfOk result (λ left. left ≤ 1) }
    {
        if self.has_stopped {
            return Err(FeedError::Stopped);
        }
        self.has_stopped = true;
        let left = self.queue.last();
        let Ok(()) = self.queue.hand(blocks) else {
            return Err(FeedError::Taker);
        };
        Ok(left)
    }
}

// Puts octets in a queue, and hands over the blocks of the windows that are closed by them.
fn take<B: BlockTaker>(queue: &mut WindowQueue, piece: &[u8], blocks: &mut B) -> Result<(), Failed>
    requires given_phase { queue.old.find ≡ false }
    requires going { queue.old.has_ended ≡ false }
    requires is_open { IsOpen queue.old }
    requires few { reached queue.old + length piece.now < stream_bound }
    ensures ok { OnOk result (IsOpen queue.new × ((more : List WindowBlock)
        × HandedOver B.took blocks.old more blocks.new
        × ((given : List ℕ) (done : List WindowBlock) → QueueStandsFor queue.old given done
        → QueueStandsFor queue.new (given ++ piece.now) (done ++ more)))) }
    ensures err { OnErr result ((tried : List WindowBlock) × HandedPart B.took B.broke blocks.old tried blocks.new
        × ((given : List ℕ) (done : List WindowBlock) → QueueStandsFor queue.old given done
        → AreFirstIn queue.old.windows (given ++ piece.now) (done ++ tried))) }
    ensures counted { reached queue.new ≤ reached queue.old + length piece.now }
    ensures ended { queue.new.has_ended ≡ queue.old.has_ended }
    ensures same { IsSameQueue queue.old queue.new }
    ensures cause { HasCause (B.faults blocks.old) (B.faults blocks.new) (B.is_last blocks.new) result }
{
    let mut done = 0;
    while done < piece.len() {
        done += queue.fill(false, &piece[done..]);
        match hand_closed(queue, blocks) {
            Ok(()) => {}
            Err(Failed) => return Err(Failed),
        }
    }
    Ok(())
}

// Hands over the blocks of the windows that the octets of a queue close.
fn hand_closed<B: BlockTaker>(queue: &mut WindowQueue, blocks: &mut B) -> Result<(), Failed>
    requires given_phase { queue.old.find ≡ false }
    requires few { reached queue.old < stream_bound }
    ensures ok { OnOk result (IsOpen queue.new × ((more : List WindowBlock)
        × HandedOver B.took blocks.old more blocks.new
        × ((given : List ℕ) (done : List WindowBlock) → QueueStandsFor queue.old given done
        → QueueStandsFor queue.new given (done ++ more)))) }
    ensures err { OnErr result ((tried : List WindowBlock) × HandedPart B.took B.broke blocks.old tried blocks.new
        × ((given : List ℕ) (done : List WindowBlock) → QueueStandsFor queue.old given done
        → AreFirstIn queue.old.windows given (done ++ tried))) }
    ensures counted { reached queue.new ≤ reached queue.old }
    ensures ended { queue.new.has_ended ≡ queue.old.has_ended }
    ensures same { IsSameQueue queue.old queue.new }
    ensures cause { HasCause (B.faults blocks.old) (B.faults blocks.new) (B.is_last blocks.new) result }
{
    while queue.decode(&Alone) > 0 {
        match queue.hand(blocks) {
            Ok(()) => {}
            Err(Failed) => return Err(Failed),
        }
    }
    Ok(())
}

/// Hands over the blocks of soft octets, fewer than 2^60, and returns how many octets are left over after the last
/// whole step: none or one. The settings are those of `Decoder::open`.
///
/// `Memory` comes only where there isn't enough of it. `Taker` comes where `blocks` fails; a prefix of the blocks was
/// then handed over.
pub fn decode_all<B: BlockTaker>(
    alloc: Global,
    rate: Rate,
    invert: bool,
    start: Start,
    keep: u32,
    ahead: u32,
    soft: &[u8],
    blocks: &mut B,
) -> Result<u8, AllError>
    requires keep { (least_keep ≤ keep) × (keep ≤ most_keep) }
    requires ahead { ahead ≤ most_ahead }
    ensures handed { IfOk result (λ left. (all : List WindowBlock) × HandedOver B.took blocks.old all blocks.new
        × (length soft.now < stream_bound
        → AreBlocksOf (record { rate = rate; invert = invert; start = start; keep = keep; ahead = ahead }) soft.now
        all left)) }
    ensures prefix { IsErrOf result AllError.Taker → (tried : List WindowBlock)
        × HandedPart B.took B.broke blocks.old tried blocks.new
        × (length soft.now < stream_bound
        → AreFirst (record { rate = rate; invert = invert; start = start; keep = keep; ahead = ahead }) soft.now tried
        ⊎ ((left : ℕ)
        × AreBlocksOf (record { rate = rate; invert = invert; start = start; keep = keep; ahead = ahead }) soft.now
        tried left)) }
    ensures left { IfOk result (λ left. left ≤ 1) }
    ensures unchanged { IsErrOf result AllError.Memory → blocks.new ≡ blocks.old }
    ensures later { B.faults blocks.old ≤ B.faults blocks.new }
    ensures rose { IsErrOf result AllError.Taker → Rose (B.faults blocks.old) (B.faults blocks.new)
        (B.is_last blocks.new) }
    ensures same { result ≢ Err AllError.Taker → B.faults blocks.new ≡ B.faults blocks.old }
{
    let Ok(mut decoder) = Decoder::open(alloc, rate, invert, start, keep, ahead) else {
        return Err(AllError::Memory);
    };
    let Ok(()) = decoder.feed(soft, blocks) else {
        return Err(AllError::Taker);
    };
    match decoder.finish(blocks) {
        Ok(left) => Ok(left),
        Err(_) => Err(AllError::Taker),
    }
}
