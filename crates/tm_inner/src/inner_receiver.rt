// The receiver's first stage, handed over.
ghost use Rattle.std.specs.Prelude.{◌≡◌, ◌≢◌, ℕ, ◌<◌, ◌≤◌, List, [], false, IfOk, IsErrOf, Err, length};
ghost use Rattle.tm_base.specs.Calls.{taker_call};
ghost use Rattle.tm_base.specs.Handed.{Handed, items_of, on_handed};
ghost use Rattle.tm_base.specs.Outside.{Rose};
ghost use Rattle.tm_base.specs.Takers.{HandedOver, HandedPart};
ghost use Rattle.tm_viterbi.specs.WindowBlock.{WindowBlock};
ghost use Rattle.tm_viterbi.specs.WindowSizes.{stream_bound};
ghost use Rattle.tm_windows.specs.Windows.{slips_of};
ghost use Rattle.tm_inner.specs.Inner.{inner_bits, reported_slips};
ghost use Rattle.tm_inner.specs.Phase.{IsChosenSoFar};
ghost use Rattle.tm_inner.specs.Receiving.{HasHanded};
ghost use Rattle.tm_inner.specs.Calls.{Feeds, Finishes};
ghost use Rattle.tm_inner.specs.Handing.{AreHanded, AreHandedPrefix};

use crate::decoder::{InnerDecoder, InnerEnd};
use crate::until_fault::UntilFault;
use crate::watch::{watch_due, watch_last};
use std::alloc::Global;
use std::marker::Model;
use tm_base::NoMemory;
use tm_config::Config;
use tm_viterbi::BlockTaker;
use tm_windows::{AllError, Chosen, FeedError};

/// Makes the blocks of the inner code of octets that are received, piece by piece (CCSDS 131.0-B, Convolutional
/// Coding): it drops the octets that are to be skipped, undoes the soft form, finds the symbol phase where it isn't
/// given, and decodes. With no inner code the octets hold the bits themselves, and no block comes. It takes all its
/// memory at `open`.
#[derive(Drop)]
pub struct InnerReceiver {
    decoder: InnerDecoder,
    has_stopped: bool,
}

impl Model for InnerReceiver {
    ghost use Rattle.std.specs.Prelude.{◌≡◌, false};
    ghost use Rattle.tm_inner.specs.Receiving.{InnerReceiving};

    ghost Value = { InnerReceiving };

    ghost view = { λ r. record { decoder = r.decoder; has_stopped = r.has_stopped } };

    ghost invariant = { λ r. r.has_stopped ≡ false → r.decoder.has_ended ≡ false };
}

impl InnerReceiver {
    /// Opens an inner receiver of a configuration. It fails only where there isn't enough memory.
    pub fn open(alloc: Global, config: &Config) -> Result<InnerReceiver, NoMemory>
        ensures config { IfOk result (λ r. r.decoder.config ≡ config.now) }
        ensures fresh { IfOk result (λ r. r.has_stopped ≡ false) }
        ensures stands { IfOk result (λ r. HasHanded r.decoder [] []) }
    {
        let decoder = InnerDecoder::open(alloc, config, 1, 0)?;
        Ok(InnerReceiver {
            decoder,
            has_stopped: false,
        })
    }

    /// Takes the next octets, and hands over what is due with them: the blocks of the windows that are closed, all
    /// blocks of the octets so far but the last. Where the symbol phase is to be found nothing is due until it is
    /// chosen: once all steps of a window can be compared, or with no inner code at the first octet. Then it is handed
    /// over, once, before any block.
    ///
    /// `Taker` comes where `blocks` fails; a prefix of what is due was then handed over. `Stopped` comes where an
    /// earlier call returned `Taker` or `finish` was called; nothing is handed over then.
    ///
    /// The octets given in all are to be below 2^60.
    pub fn feed<B: BlockTaker>(&mut self, octets: &[u8], blocks: &mut B) -> Result<(), FeedError>
        ensures { Feeds self.old self.new octets.now
            (taker_call (on_handed B.took_phase B.took) (on_handed B.broke_phase B.broke) B.faults B.is_last
            blocks.old blocks.new) result }
    {
        if self.has_stopped {
            return Err(FeedError::Stopped);
        }
        let within = self.decoder.within(octets.len());
        let mut until = UntilFault {
            taker: blocks,
            has_failed: false,
        };
        watch_due(&mut self.decoder, &octets[..within], &mut until);
        let UntilFault { has_failed, .. } = until;
        self.has_stopped = has_failed;
        if has_failed {
            return Err(FeedError::Taker);
        }
        Ok(())
    }

    /// Hands over what is left: the symbol phase, where it is to be found and was not chosen yet, and the last blocks.
    /// Returns how many bits were received, how often octets were dropped, and how many are left over. It is called
    /// once, at the end of the octets.
    ///
    /// `Taker` comes where `blocks` fails; a prefix of all was then handed over. `Stopped` comes where an earlier call
    /// returned `Taker` or `finish` was called; nothing is handed over then.
    pub fn finish<B: BlockTaker>(&mut self, blocks: &mut B) -> Result<InnerEnd, FeedError>
        ensures { Finishes self.old self.new
            (taker_call (on_handed B.took_phase B.took) (on_handed B.broke_phase B.broke) B.faults B.is_last
            blocks.old blocks.new) result }
    {
        if self.has_stopped {
            return Err(FeedError::Stopped);
        }
        self.has_stopped = true;
        let mut until = UntilFault {
            taker: blocks,
            has_failed: false,
        };
        let end = watch_last(&mut self.decoder, &mut until);
        let UntilFault { has_failed, .. } = until;
        if has_failed {
            return Err(FeedError::Taker);
        }
        Ok(end)
    }

    /// The symbol phase that was chosen: None before the choice, and where the phase is given.
    pub fn chosen(&self) -> Option<Chosen>
        ensures value { result ≡ self.now.decoder.chosen }
        ensures so_far { (given : List ℕ) (done : List (Handed WindowBlock)) → HasHanded self.now.decoder given done
            → IsChosenSoFar self.now.decoder.config given result }
    {
        self.decoder.chosen()
    }

    /// Before how many windows octets were dropped, of those whose blocks were handed over: none where the symbol phase
    /// is not followed.
    pub fn slips(&self) -> u64
        ensures { (given : List ℕ) (done : List (Handed WindowBlock)) → HasHanded self.now.decoder given done
            → result ≡ slips_of (items_of done) }
    {
        self.decoder.slips()
    }
}

/// Hands over the symbol phase of received octets, fewer than 2^60, where it is to be found, and their blocks. Returns
/// how many bits were received, how often octets were dropped, and how many are left over. With no inner code no block
/// comes.
///
/// `Memory` comes only where there isn't enough of it. `Taker` comes where `blocks` fails; a prefix of all was then
/// handed over.
pub fn inner_all<B: BlockTaker>(
    alloc: Global,
    config: &Config,
    octets: &[u8],
    blocks: &mut B,
) -> Result<InnerEnd, AllError>
    ensures handed { IfOk result (λ end. (all : List (Handed WindowBlock))
        × HandedOver (on_handed B.took_phase B.took) blocks.old all blocks.new
        × (length octets.now < stream_bound → AreHanded config.now octets.now all end.leftover
        × (end.bits ≡ length (inner_bits config.now octets.now (items_of all)))
        × (end.slips ≡ reported_slips config.now (items_of all)))) }
    ensures prefix { IsErrOf result AllError.Taker
        → (tried : List (Handed WindowBlock)) × HandedPart (on_handed B.took_phase B.took)
        (on_handed B.broke_phase B.broke) blocks.old tried blocks.new
        × (length octets.now < stream_bound → AreHandedPrefix config.now octets.now tried) }
    ensures left { IfOk result (λ end. end.leftover ≤ 1) }
    ensures unchanged { IsErrOf result AllError.Memory → blocks.new ≡ blocks.old }
    ensures later { B.faults blocks.old ≤ B.faults blocks.new }
    ensures rose { IsErrOf result AllError.Taker
        → Rose (B.faults blocks.old) (B.faults blocks.new) (B.is_last blocks.new) }
    ensures same { result ≢ Err AllError.Taker → B.faults blocks.new ≡ B.faults blocks.old }
{
    let Ok(mut receiver) = InnerReceiver::open(alloc, config) else {
        return Err(AllError::Memory);
    };
    let Ok(()) = receiver.feed(octets, blocks) else {
        return Err(AllError::Taker);
    };
    match receiver.finish(blocks) {
        Ok(end) => Ok(end),
        Err(_) => Err(AllError::Taker),
    }
}
