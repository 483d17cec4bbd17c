// The receiver: octets in, items out.
ghost use Rattle.std.specs.Prelude.{◌≡◌, ◌≢◌, ◌⊎◌, ◌++◌, ℕ, ◌+◌, ◌*◌, ◌^◌, ◌<◌, ◌≤◌, true, false, List, [], length, None, IfOk, IfSome, IsErrOf, IsTrue, Err};
ghost use Rattle.std.specs.Thread.{IsSync};
ghost use Rattle.tm_base.specs.Handed.{Handed, on_handed};
ghost use Rattle.tm_base.specs.Outside.{Rose};
ghost use Rattle.tm_base.specs.Takers.{HandedOver, HandedPart};
ghost use Rattle.tm_base.specs.Limits.{most_workers};
ghost use Rattle.tm_config.specs.Accepted.{IsAccepted};
ghost use Rattle.tm_inner.specs.InnerDecoding.{HasWorkers, Shares, shared_by, sharing_in};
ghost use Rattle.tm_inner.specs.InnerWindows.{AreDecoded, AreTold, AreWindows};
ghost use Rattle.tm_inner.specs.Phase.{IsChosenSoFar};
ghost use Rattle.tm_inner.specs.Receiving.{Hands};
ghost use Rattle.tm_inner.specs.declared.window.Window.{Window};
ghost use Rattle.tm_sync.specs.Places.{settled_by};
ghost use Rattle.tm_codeblock.specs.ReceivedCodeblock.{columns_of, rules_of};
ghost use Rattle.tm_viterbi.specs.WindowSizes.{stream_bound};
ghost use Rattle.tm_channel.specs.ColumnDecoding.{AreColumns, AreColumnsDecoded, IsColumnDecoder};
ghost use Rattle.tm_channel.specs.Items.{ItemValue};
ghost use Rattle.tm_channel.specs.Handing.{AreReceived, AreReceivedFirst, AreReceivedPrefix};
ghost use Rattle.tm_channel.specs.Calls.{Feeds, Finishes, Tells, TellsLast};
ghost use Rattle.tm_channel.specs.OctetReceiving.{AreSlipsSoFar, ReceiverStandsFor};
ghost use Rattle.tm_channel.specs.Receiving.{run_size, waiting_bits};

use crate::bit_receiver::BitReceiver;
use crate::column_words::decode_columns;
use crate::item::{ItemTaker, ItemWatch};
use crate::origins::Origins;
use crate::pipeline::{PIECE, end, take};
use crate::store::{Codeblocks, waiting_bits};
use crate::totals::Totals;
use crate::until_fault::UntilFault;
use std::alloc::Global;
use std::marker::Model;
use std::thread::Threads;
use thiserror::Error;
use tm_base::NoMemory;
use tm_codeblock::{codeblock_size, columns_of, finds_polarity, has_code};
use tm_config::Config;
use tm_inner::{InnerDecoder, NoWatch, WindowWatch};
use tm_sync::{Finder, RecentBits};
use tm_windows::{AllError, Chosen, Crew, Threaded};
use tm_workers::{Gate, OpenGate, Word};

/// Why a receiver refused a call.
#[derive(Clone, Copy, Debug, PartialEq, Eq, Error)]
pub enum RecvError {
    /// The taker of the items failed.
    #[error("taker")]
    Taker,
    /// An earlier call returned `Taker`, or the receiver was finished.
    #[error("stopped")]
    Stopped,
}

/// Takes received octets, and hands over what is said of each codeblock that is found in them (CCSDS 131.0-B,
/// Convolutional Coding, Frame Synchronization, Pseudo-Randomizer and Reed-Solomon Coding). Codeblocks are repaired in
/// batches as large as its configuration says, by its workers or by the caller alone. It takes all its memory at
/// `open`.
#[derive(Drop)]
pub struct Receiver {
    config: Config,
    alloc: Global,
    inner: InnerDecoder,
    stream: BitReceiver,
    has_stopped: bool,
    // For how many workers it was opened, and by how many the last call decoded at most: what clauses alone read.
    by: usize,
}

impl Model for Receiver {
    ghost use Rattle.std.specs.Prelude.{◌≡◌, false};
    ghost use Rattle.tm_config.specs.Accepted.{IsAccepted};
    ghost use Rattle.tm_channel.specs.OctetReceiving.{AwaitsBits, OctetReceiving};

    ghost Value = { OctetReceiving };

    ghost view = { λ r. record {
      config = r.config;
      has_stopped = r.has_stopped;
      stages = record { inner = r.inner; bits = r.stream };
      by = r.by;
    } };

    ghost invariant = { λ r. (r.inner.config ≡ r.config) × (r.stream.batch.config ≡ r.config)
        × IsAccepted r.config × (r.has_stopped ≡ false → AwaitsBits r.stream) };
}

impl Receiver {
    /// A new receiver of a configuration. It fails only where there isn't enough memory.
    pub fn open(alloc: Global, config: Config) -> Result<Receiver, NoMemory>
        ensures config { IfOk result (λ r. r.config ≡ config) }
        ensures fresh { IfOk result (λ r. r.has_stopped ≡ false) }
        ensures stands { IfOk result (λ r. ReceiverStandsFor r [] []) }
        ensures workers { IfOk result (λ r. HasWorkers config.workers (waiting_bits config config.batch)
            r.stages.inner.queue) }
        ensures by { IfOk result (λ r. r.by ≡ config.workers) }
    {
        Receiver::open_for(alloc, config, config.workers() as u8)
    }

    /// A new receiver with windows of the inner code, and codeblocks that are expected, for `workers` workers, 1 to 64,
    /// whatever the configuration says. It fails only where there isn't enough memory.
    pub fn open_for(alloc: Global, config: Config, workers: u8) -> Result<Receiver, NoMemory>
        requires workers { (0 < workers) × (workers ≤ most_workers) }
        ensures config { IfOk result (λ r. r.config ≡ config) }
        ensures fresh { IfOk result (λ r. r.has_stopped ≡ false) }
        ensures stands { IfOk result (λ r. ReceiverStandsFor r [] []) }
        ensures workers { IfOk result (λ r. HasWorkers workers (waiting_bits config config.batch)
            r.stages.inner.queue) }
        ensures by { IfOk result (λ r. r.by ≡ workers) }
        ensures decoded { IfOk result (λ r. AreDecoded r.stages.inner) }
    {
        let waiting = waiting_bits(&config, config.batch());
        let Ok(inner) = InnerDecoder::open(alloc, &config, workers, waiting) else {
            return Err(NoMemory);
        };
        let Ok(batch) = Codeblocks::open(alloc, config, workers) else {
            return Err(NoMemory);
        };
        let Ok((finder, recent)) = open_search(alloc, &config) else {
            return Err(NoMemory);
        };
        let Ok(origins) = Origins::open(alloc, &config) else {
            return Err(NoMemory);
        };
        Ok(Receiver {
            config,
            alloc,
            inner,
            stream: BitReceiver {
                finder,
                recent,
                batch,
                origins,
            },
            has_stopped: false,
            by: usize::from(workers),
        })
    }

    /// The allocator of its memory, for `decode_columns`.
    pub fn alloc(&self) -> Global {
        self.alloc
    }

    /// Takes the next octets, and hands over the items that are due: those of the places in the bits received, in whole
    /// batches as large as the configuration says. With an inner code these are the bits of all windows that are
    /// closed. Where the symbol phase is to be found nothing is due until it is chosen: once all steps of a window can
    /// be compared, or with no inner code at the first octet. Then it is handed over, once, before any item.
    ///
    /// `Taker` comes where `taker` fails; a prefix of what is due was then handed over. `Stopped` comes where an
    /// earlier call returned `Taker` or the receiver was finished; nothing is handed over then.
    ///
    /// The octets given in all are to be below 2^60. Workers enter `gate` before each word that they decode.
    pub fn feed<R: Threads + Sync, T: ItemTaker, G: Gate + Sync>(
        &mut self,
        rt: &R,
        octets: &[u8],
        taker: &mut T,
        gate: &G,
    ) -> Result<(), RecvError>
        ensures feeds { Feeds (on_handed T.took_phase T.took) (on_handed T.broke_phase T.broke) T.faults T.is_last
            self.old self.new taker.old taker.new octets.now result }
        ensures shares { Shares (λ workers. workers) self.old.stages.inner.queue self.new.stages.inner.queue }
        ensures by { self.old.has_stopped ≡ false → self.new.by ≡ self.old.config.workers }
    {
        let alloc = self.alloc;
        let decoder = |config: &Config, words: &mut [Word]|
            requires { IsSync R.row × IsSync G.row × AreColumns config.now (length words.old) }
            ensures { AreColumnsDecoded config.now words.old words.new }
        { decode_columns(rt, alloc, config, words, gate) };
        let mut until = UntilFault {
            taker,
            has_failed: false,
        };
        let went = self.receive(&Threaded { rt }, &decoder, octets, &mut NoWatch, &mut until);
        let UntilFault { has_failed, .. } = until;
        if !went {
            return Err(RecvError::Stopped);
        }
        if has_failed {
            self.stop();
            return Err(RecvError::Taker);
        }
        Ok(())
    }

    // Takes no more octets.
    fn stop(&mut self)
        ensures { self.new ≡ record self.old { has_stopped = true } }
    {
        self.has_stopped = true;
    }

    /// Does what `feed` does, by this crew and with this decoder of codewords, for what never fails, and tells of each
    /// window of the inner code that is decoded. Calls of both kinds, and of several crews, may follow one another: the
    /// items are the same, and windows that `feed` decodes are not told of. Returns false where an earlier call returned
    /// `Taker` or the receiver was finished; nothing is handed over then.
    pub fn receive<C: Crew, F: Fn(&Config, &mut [Word]), W: WindowWatch, T: ItemWatch>(
        &mut self,
        crew: &C,
        decoder: &F,
        octets: &[u8],
        watch: &mut W,
        items: &mut T,
    ) -> bool
        requires crew { C.is_ready crew.now × IsColumnDecoder F.Fn decoder.now }
        ensures tells { Tells (on_handed T.took_phase T.took) self.old self.new items.old items.new octets.now result }
        ensures watched { self.old.stages.inner.has_ended ≡ false → IsTrue result
            → Hands W.took AreTold self.old.stages.inner self.new.stages.inner watch.old watch.new octets.now }
        ensures all { C.share crew.now 2 ≤ 1 → IsTrue result → AreDecoded self.new.stages.inner }
        ensures of { (self.old.stages.inner.config ≡ self.old.config)
            × (self.new.stages.inner.config ≡ self.old.config) × IsAccepted self.old.config }
        ensures shares { Shares (C.share crew.now) self.old.stages.inner.queue self.new.stages.inner.queue }
        ensures by { self.old.has_stopped ≡ false → self.new.by ≡ C.share crew.now self.old.config.workers }
    {
        if self.has_stopped {
            return false;
        }
        self.by = workers_by(&self.config, crew);
        take(
            &mut self.inner,
            &mut self.stream,
            crew,
            decoder,
            octets,
            watch,
            items,
        );
        true
    }

    /// Hands over what is left: the symbol phase, where it is to be found and was not chosen yet, and the last items.
    /// Returns what all octets came to. It is called once, at the end of the octets.
    ///
    /// `Taker` comes where `taker` fails; a prefix of all was then handed over. `Stopped` comes where an earlier call
    /// returned `Taker` or the receiver was finished; nothing is handed over then.
    pub fn finish<R: Threads + Sync, T: ItemTaker, G: Gate + Sync>(
        &mut self,
        rt: &R,
        taker: &mut T,
        gate: &G,
    ) -> Result<Totals, RecvError>
        ensures finishes { Finishes (on_handed T.took_phase T.took) (on_handed T.broke_phase T.broke) T.faults T.is_last
            self.old self.new taker.old taker.new result }
        ensures sharing { self.old.has_stopped ≡ false → sharing_in self.new.stages.inner.queue
            ≡ shared_by (λ workers. workers) (sharing_in self.old.stages.inner.queue) }
        ensures by { self.old.has_stopped ≡ false → self.new.by ≡ self.old.config.workers }
    {
        let alloc = self.alloc;
        let decoder = |config: &Config, words: &mut [Word]|
            requires { IsSync R.row × IsSync G.row × AreColumns config.now (length words.old) }
            ensures { AreColumnsDecoded config.now words.old words.new }
        { decode_columns(rt, alloc, config, words, gate) };
        let mut until = UntilFault {
            taker,
            has_failed: false,
        };
        let ended = self.end(&Threaded { rt }, &decoder, &mut NoWatch, &mut until);
        let UntilFault { has_failed, .. } = until;
        let Some(totals) = ended else {
            return Err(RecvError::Stopped);
        };
        if has_failed {
            return Err(RecvError::Taker);
        }
        Ok(totals)
    }

    /// Does what `finish` does, by this crew and with this decoder of codewords, for what never fails, and tells of the
    /// windows that are left, whichever calls were before. None comes where an earlier call returned `Taker` or the
    /// receiver was finished.
    pub fn end<C: Crew, F: Fn(&Config, &mut [Word]), W: WindowWatch, T: ItemWatch>(
        &mut self,
        crew: &C,
        decoder: &F,
        watch: &mut W,
        items: &mut T,
    ) -> Option<Totals>
        requires crew { C.is_ready crew.now × IsColumnDecoder F.Fn decoder.now }
        ensures tells { TellsLast (on_handed T.took_phase T.took) self.old self.new items.old items.new result }
        ensures watched { IfSome result (λ _. (last : List Window) × HandedOver W.took watch.old last watch.new
            × ((given : List ℕ) (done : List Window) → AreTold self.old.stages.inner given done
            → AreWindows self.old.config given (done ++ last))) }
        ensures of { (self.old.stages.inner.config ≡ self.old.config) × IsAccepted self.old.config }
        ensures sharing { self.old.has_stopped ≡ false → sharing_in self.new.stages.inner.queue
            ≡ shared_by (C.share crew.now) (sharing_in self.old.stages.inner.queue) }
        ensures by { self.old.has_stopped ≡ false → self.new.by ≡ C.share crew.now self.old.config.workers }
    {
        if self.has_stopped {
            return None;
        }
        self.has_stopped = true;
        self.by = workers_by(&self.config, crew);
        Some(end(
            &mut self.inner,
            &mut self.stream,
            crew,
            decoder,
            watch,
            items,
        ))
    }

    /// The symbol phase that was chosen: None before the choice, and where the phase is given.
    pub fn chosen(&self) -> Option<Chosen>
        ensures value { result ≡ self.now.stages.inner.chosen }
        ensures so_far { (given : List ℕ) (done : List (Handed ItemValue)) → ReceiverStandsFor self.now given done
            → IsChosenSoFar self.now.config given result }
    {
        self.inner.chosen()
    }

    /// Before how many windows of the inner code octets were dropped so far, of those whose bits were searched: none
    /// where the symbol phase is not followed.
    pub fn slips(&self) -> u64
        ensures { (given : List ℕ) (done : List (Handed ItemValue)) → ReceiverStandsFor self.now given done
            → AreSlipsSoFar self.now.config given done result }
    {
        self.inner.slips()
    }
}

// By how many workers of a configuration a crew decodes at most.
fn workers_by<C: Crew>(config: &Config, crew: &C) -> usize
    ensures { result ≡ C.share crew.now config.now.workers }
{
    crew.share(config.workers() as usize)
}

// The search for the codeblocks of a configuration, and the room for the bits that it has not passed.
fn open_search(alloc: Global, config: &Config) -> Result<(Finder, RecentBits), NoMemory>
    ensures finder { IfOk result (λ opened. opened.0
        ≡ record { rules = rules_of config.now; columns = columns_of config.now; passed = 0; last = None }) }
    ensures recent { IfOk result (λ opened. opened.1.bits ≡ []) }
    ensures sized { IfOk result (λ opened.
        settled_by opened.0.rules.verify opened.0.rules.block_bits + 8 * run_size + 14 ≤ 8 * opened.1.size) }
    ensures accepted { IsAccepted config.now }
{
    let size = codeblock_size(config);
    let finder = Finder::new(
        config.tolerance() as u8,
        config.fly() as u8,
        finds_polarity(config),
        8 * size as u32,
        config.verify() as u8,
        columns_of(config),
    );
    // A place is settled by its marker and codeblock and by those that verify it; a piece of octets follows these.
    let units = 1 + config.verify() as usize;
    let Ok(room) = vec![in alloc; 0; units * (4 + size) + PIECE + expected_octets(config)] else {
        return Err(NoMemory);
    };
    Ok((finder, RecentBits::new(room)))
}

// How many octets besides hold the bits that the inner code is decoded to at a time, where expected codeblocks are
// decoded in them.
fn expected_octets(config: &Config) -> usize
    ensures { result < 2 ^ 31 }
{
    if !config.values().rescan || !has_code(config) || config.workers() < 2 {
        return 0;
    }
    (waiting_bits(config, config.batch()) + config.keep()) as usize / 8
}

/// Hands over the symbol phase of octets, fewer than 2^60, where it is to be found, and all their items. Returns what
/// the octets came to.
///
/// `Memory` comes only where there isn't enough of it; nothing is handed over then. `Taker` comes where `taker` fails;
/// a prefix of all was then handed over. Workers enter `OpenGate`.
pub fn receive_all<R: Threads + Sync, T: ItemTaker>(
    rt: &R,
    alloc: Global,
    config: Config,
    octets: &[u8],
    taker: &mut T,
) -> Result<Totals, AllError>
    ensures handed { IfOk result (λ totals. (all : List (Handed ItemValue))
        × HandedOver (on_handed T.took_phase T.took) taker.old all taker.new
        × (length octets.now < stream_bound → AreReceived config octets.now all totals)) }
    ensures prefix { IsErrOf result AllError.Taker
        → (tried : List (Handed ItemValue)) × HandedPart (on_handed T.took_phase T.took)
        (on_handed T.broke_phase T.broke) taker.old tried taker.new
        × (length octets.now < stream_bound → AreReceivedFirst config octets.now tried
        ⊎ AreReceivedPrefix config octets.now tried) }
    ensures unchanged { IsErrOf result AllError.Memory → taker.new ≡ taker.old }
    ensures later { T.faults taker.old ≤ T.faults taker.new }
    ensures rose { IsErrOf result AllError.Taker
        → Rose (T.faults taker.old) (T.faults taker.new) (T.is_last taker.new) }
    ensures same { result ≢ Err AllError.Taker → T.faults taker.new ≡ T.faults taker.old }
{
    let Ok(mut receiver) = Receiver::open(alloc, config) else {
        return Err(AllError::Memory);
    };
    let Ok(()) = receiver.feed(rt, octets, taker, &OpenGate) else {
        return Err(AllError::Taker);
    };
    match receiver.finish(rt, taker, &OpenGate) {
        Ok(totals) => Ok(totals),
        Err(_) => Err(AllError::Taker),
    }
}
