// Bits in, items out.
ghost use Rattle.std.specs.Prelude.{◌≡◌, ◌<◌, ◌≤◌, ◌+◌, ◌*◌, ◌%◌, ◌==◌, ℕ, nat_lt, if◌then◌else◌, Bool, false, List, [], ◌++◌, length, map, drop, IsTrue};
ghost use Rattle.std.specs.Option.{is_some};
ghost use Rattle.tm_base.specs.Bits.{bits_of};
ghost use Rattle.tm_base.specs.Takers.{HandedOver};
ghost use Rattle.tm_conv.specs.declared.rates.Rate.{Rate};
ghost use Rattle.tm_sync.specs.declared.found.Found.{Found};
ghost use Rattle.tm_sync.specs.Bits.{bits_bound};
ghost use Rattle.tm_inner.specs.InnerDecoding.{ready_in};
ghost use Rattle.tm_codeblock.specs.ReceivedCodeblock.{places_in};
ghost use Rattle.tm_channel.specs.ColumnDecoding.{IsColumnDecoder};
ghost use Rattle.tm_channel.specs.Items.{ItemValue};
ghost use Rattle.tm_channel.specs.Origins.{AreHandedSymbols, place_symbol};
ghost use Rattle.tm_channel.specs.Receiving.{Agree, AreItemsFor, AreWritten, Fills, HoldsFound, IsHanded, IsReady, piece_size, run_size, waiting_bits};
ghost use Rattle.tm_channel.specs.OctetReceiving.{AreSpare, AwaitsBits, Gathered, HasFound, IsEnded, IsSearched, IsSettled, Notes, NotesOrigin, ReceivedAt, Receives, bits_of_blocks, spare_bits};

use crate::item::ItemWatch;
use crate::origins::Origins;
use crate::packed::{RUN, pack_run};
use crate::store::Codeblocks;
use tm_codeblock::run_length;
use tm_config::Config;
use tm_inner::InnerDecoder;
use tm_sync::{Finder, RecentBits};
use tm_windows::Crew;
use tm_workers::Word;

// Hands over the items of the codeblocks that are stored.
fn hand_over<T: ItemWatch>(batch: &Codeblocks, taker: &mut T)
    requires { AreItemsFor batch.now.config batch.now.stored batch.now.items }
    ensures { (items : List ItemValue) × AreItemsFor batch.now.config batch.now.stored items
        × HandedOver T.took taker.old items taker.new × (map place_symbol items ≡ batch.now.symbols) }
{
    for i in 0..batch.count() {
        let item = batch.item(i);
        taker.item(&item);
    }
}

/// Searches the markers in a stream of bits, and keeps the codeblocks after them until a batch of them is full. The
/// batch is then repaired and handed over.
#[derive(Drop)]
pub struct BitReceiver {
    pub finder: Finder,
    // The bits that are not passed yet.
    pub recent: RecentBits,
    pub batch: Codeblocks,
    // Of the bits that it was given last, and of all that are not passed.
    pub origins: Origins,
}

impl BitReceiver {
    /// Notes how many of the octets that were given are of no step before the next bit.
    pub fn note(&mut self, origin: u64)
        requires awaits { AwaitsBits self.old }
        ensures awaits { AwaitsBits self.new }
        ensures same { Notes self.old self.new }
        ensures noted { (rate : Rate) → NotesOrigin self.old.batch.config self.old self.new rate origin }
    {
        let first = self
            .finder
            .passed()
            .wrapping_add(self.recent.count() as u64);
        self.origins.note(first, origin);
    }

    /// Takes the next bits, those of octets after the first `from` ones, and hands over the items that are due with
    /// them. They wait in the room where no batch can be full with those that are not passed, to be searched together
    /// with others. Each full batch is repaired by this decoder.
    pub fn receive<F: Fn(&Config, &mut [Word]), T: ItemWatch>(
        &mut self,
        decoder: &F,
        octets: &[u8],
        from: usize,
        taker: &mut T,
    )
        requires decoder { IsColumnDecoder F.Fn decoder.now }
        requires plain { is_some self.old.batch.config.inner ≡ false }
        requires most { length octets.now ≤ piece_size }
        requires awaits { AwaitsBits self.old }
        ensures awaits { AwaitsBits self.new }
        ensures handed { ReceivedAt T.took self.old self.new taker.old taker.new (drop from (bits_of octets.now)) }
    {
        let mut done = 0;
        while done < octets.len() {
            let end = done + self.recent.free().min(octets.len() - done);
            let piece = &octets[done..end];
            let skipped = from.saturating_sub(8 * done).min(8 * piece.len());
            self.put(decoder, piece, skipped, taker);
            done = end;
        }
        self.search(decoder, taker);
    }

    /// Does the same with bits, each 0 or 1.
    pub fn receive_bits<F: Fn(&Config, &mut [Word]), T: ItemWatch>(
        &mut self,
        decoder: &F,
        bits: &[u8],
        taker: &mut T,
    )
        requires decoder { IsColumnDecoder F.Fn decoder.now }
        requires plain { is_some self.old.batch.config.inner ≡ false }
        requires awaits { AwaitsBits self.old }
        ensures awaits { AwaitsBits self.new }
        ensures handed { ReceivedAt T.took self.old self.new taker.old taker.new (map (λ bit. bit == 1) bits.now) }
    {
        self.gather(decoder, bits, taker);
        self.search(decoder, taker);
    }

    /// Takes the bits of the blocks that are ready, and hands over the items that are due with them. As many as there
    /// is room for are searched together, so that several codeblocks are whole in the room.
    pub fn receive_ready<F: Fn(&Config, &mut [Word]), T: ItemWatch>(
        &mut self,
        decoder: &F,
        inner: &InnerDecoder,
        taker: &mut T,
    )
        requires decoder { IsColumnDecoder F.Fn decoder.now }
        requires awaits { AwaitsBits self.old }
        ensures awaits { AwaitsBits self.new }
        ensures handed { ReceivedAt T.took self.old self.new taker.old taker.new
            (bits_of_blocks (ready_in inner.now.queue)) }
    {
        for index in 0..inner.ready() {
            self.gather(decoder, inner.kept_bits(index), taker);
        }
        self.keep_all(decoder, taker);
    }

    /// How many further bits make no item due, whatever they are: one fewer than the codeblocks that the batch lacks
    /// have at least with their markers, less those that are not passed; none with one worker, or where the caller is
    /// alone, since none has to wait.
    pub fn spare<C: Crew>(&self, crew: &C) -> u64
        requires awaits { AwaitsBits self.now }
        ensures value { AreSpare self.now result }
        ensures most { result ≤ waiting_bits self.now.batch.config self.now.batch.config.batch }
        ensures exact { result ≡ (if nat_lt 1 (C.share crew.now 2) then spare_bits self.now else 0) }
    {
        if crew.share(2) < 2 {
            return 0;
        }
        let lacking = self.batch.bits_lacking();
        lacking.saturating_sub(self.recent.count() as u64 + 1)
    }

    /// Hands over the items that were not due before the end of the bits was known.
    pub fn hand_last<F: Fn(&Config, &mut [Word]), T: ItemWatch>(
        &mut self,
        decoder: &F,
        taker: &mut T,
    )
        requires decoder { IsColumnDecoder F.Fn decoder.now }
        requires awaits { AwaitsBits self.old }
        ensures handed { Receives IsSearched IsEnded T.took self.old self.new taker.old taker.new [] }
    {
        self.keep_all(decoder, taker);
        self.hand_all(decoder, taker);
    }

    // Searches the bits in the room, or lets them wait where no item is due with them, whatever they are: with more of
    // them several codeblocks are whole, which several workers decode at once.
    fn search<F: Fn(&Config, &mut [Word]), T: ItemWatch>(&mut self, decoder: &F, taker: &mut T)
        requires decoder { IsColumnDecoder F.Fn decoder.now }
        requires fills { Fills self.old.finder self.old.recent self.old.batch }
        ensures fills { Fills self.new.finder self.new.recent self.new.batch }
        ensures searched { Receives Gathered IsSearched T.took self.old self.new taker.old taker.new [] }
    {
        if (self.recent.count() as u64) < self.batch.bits_lacking() {
            return;
        }
        self.keep_all(decoder, taker);
    }

    // Puts bits, each 0 or 1, into the room.
    fn gather<F: Fn(&Config, &mut [Word]), T: ItemWatch>(
        &mut self,
        decoder: &F,
        bits: &[u8],
        taker: &mut T,
    )
        requires decoder { IsColumnDecoder F.Fn decoder.now }
        requires fills { Fills self.old.finder self.old.recent self.old.batch }
        ensures fills { Fills self.new.finder self.new.recent self.new.batch }
        ensures gathers { Receives Gathered Gathered T.took self.old self.new taker.old taker.new
            (map (λ bit. bit == 1) bits.now) }
    {
        let mut done = 0;
        while done < bits.len() {
            let count = run_length(bits.len() - done, RUN);
            let mut room = [0; RUN];
            let (octets, from) = pack_run(&bits[done..done + count], &mut room);
            self.put(decoder, &room[..octets], from, taker);
            done += count;
        }
    }

    // Puts the bits of octets after the first `from` ones into the room, and searches all that are there where `RUN`
    // octets more might not fit.
    fn put<F: Fn(&Config, &mut [Word]), T: ItemWatch>(
        &mut self,
        decoder: &F,
        octets: &[u8],
        from: usize,
        taker: &mut T,
    )
        requires decoder { IsColumnDecoder F.Fn decoder.now }
        requires from { from ≤ 8 * length octets.now }
        requires room { length self.old.recent.bits + 8 * length octets.now + 7 ≤ 8 * self.old.recent.size }
        requires fills { Fills self.old.finder self.old.recent self.old.batch }
        ensures fills { Fills self.new.finder self.new.recent self.new.batch }
        ensures gathers { Receives Gathered Gathered T.took self.old self.new taker.old taker.new
            (drop from (bits_of octets.now)) }
    {
        self.recent.push(octets, from);
        if self.recent.free() >= RUN {
            return;
        }
        self.keep_all(decoder, taker);
    }

    // Keeps the codeblocks that are whole with the last bits, and hands over each batch that is full with them.
    fn keep_all<F: Fn(&Config, &mut [Word]), T: ItemWatch>(&mut self, decoder: &F, taker: &mut T)
        requires decoder { IsColumnDecoder F.Fn decoder.now }
        requires agree { Agree self.old.finder self.old.recent self.old.batch }
        requires few { length self.old.batch.stored < self.old.batch.config.batch }
        ensures ready { IsReady self.new.finder self.new.recent self.new.batch }
        ensures settles { Receives Gathered IsSettled T.took self.old self.new taker.old taker.new [] }
    {
        while self.keep_next(decoder) {
            self.hand_full(decoder, taker);
        }
    }

    // Keeps the next codeblock that is whole with the last bits, or passes it where it does not count. Returns whether
    // there was one.
    fn keep_next<F: Fn(&Config, &mut [Word])>(&mut self, decoder: &F) -> bool
        requires decoder { IsColumnDecoder F.Fn decoder.now }
        requires agree { Agree self.old.finder self.old.recent self.old.batch }
        requires few { length self.old.batch.stored < self.old.batch.config.batch }
        ensures agree { Agree self.new.finder self.new.recent self.new.batch }
        ensures config { self.new.batch.config ≡ self.old.batch.config }
        ensures origins { self.new.origins ≡ self.old.origins }
        ensures most { length self.new.batch.stored ≤ self.new.batch.config.batch }
        ensures left { IsTrue result → length self.new.recent.bits < length self.old.recent.bits }
        ensures ready { result ≡ false → IsReady self.new.finder self.new.recent self.new.batch }
        ensures none { result ≡ false → (at : ℕ → ℕ) (count handed : ℕ) (bits : List Bool) (found : List Found)
            → length bits < bits_bound → length bits ≤ count → HasFound self.old at count handed bits found
            → HasFound self.new at count handed bits found × (places_in self.old.batch.config bits ≡ found) }
        ensures kept { IsTrue result → (next : List Found) × ((at : ℕ → ℕ) (count handed : ℕ) (bits : List Bool)
            (found : List Found) → length bits < bits_bound → length bits ≤ count
            → HasFound self.old at count handed bits found → HasFound self.new at count handed bits (found ++ next)) }
    {
        match self.finder.next(&mut self.recent) {
            None => false,
            Some(found) => {
                let is_inside = self.finder.is_inside();
                let origin = self.origins.at(found.place);
                let symbol = self.batch.symbol(origin, found.place);
                let sound = self
                    .batch
                    .keep(decoder, found, symbol, is_inside, &self.recent);
                self.finder.take(&mut self.recent, found, sound);
                true
            }
        }
    }

    // Hands over the items of a batch that is full, and keeps none of its codeblocks.
    fn hand_full<F: Fn(&Config, &mut [Word]), T: ItemWatch>(&mut self, decoder: &F, taker: &mut T)
        requires decoder { IsColumnDecoder F.Fn decoder.now }
        requires written { AreWritten self.old.batch }
        requires most { length self.old.batch.stored ≤ self.old.batch.config.batch }
        ensures finder { self.new.finder ≡ self.old.finder }
        ensures recent { self.new.recent ≡ self.old.recent }
        ensures config { self.new.batch.config ≡ self.old.batch.config }
        ensures origins { self.new.origins ≡ self.old.origins }
        ensures written { AreWritten self.new.batch }
        ensures few { length self.new.batch.stored < self.new.batch.config.batch }
        ensures all { (items : List ItemValue)
            × IsHanded self.old.batch.config self.old.batch.stored self.new.batch.stored items
            × HandedOver T.took taker.old items taker.new
            × AreHandedSymbols self.old.batch.symbols self.new.batch.symbols items }
    {
        if self.batch.count() < self.batch.room() {
            return;
        }
        self.hand_all(decoder, taker);
    }

    // Hands over the items of all codeblocks that are stored, and keeps none.
    fn hand_all<F: Fn(&Config, &mut [Word]), T: ItemWatch>(&mut self, decoder: &F, taker: &mut T)
        requires decoder { IsColumnDecoder F.Fn decoder.now }
        requires written { AreWritten self.old.batch }
        ensures finder { self.new.finder ≡ self.old.finder }
        ensures recent { self.new.recent ≡ self.old.recent }
        ensures config { self.new.batch.config ≡ self.old.batch.config }
        ensures origins { self.new.origins ≡ self.old.origins }
        ensures written { AreWritten self.new.batch }
        ensures stored { self.new.batch.stored ≡ [] }
        ensures symbols { self.new.batch.symbols ≡ [] }
        ensures all { (items : List ItemValue)
            × AreItemsFor self.old.batch.config self.old.batch.stored items
            × HandedOver T.took taker.old items taker.new
            × (map place_symbol items ≡ self.old.batch.symbols) }
    {
        self.batch.repair(decoder);
        hand_over(&self.batch, taker);
        self.batch.clear();
    }
}
