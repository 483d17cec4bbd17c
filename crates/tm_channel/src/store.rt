// The codeblocks of a batch.
ghost use Rattle.std.specs.Prelude.{◌≡◌, ◌<◌, ◌≤◌, ◌+◌, ◌-◌, ◌*◌, ◌^◌, true, false, [], ◌∷◌, ◌++◌, IfOk, IsTrue, drop, length, take};
ghost use Rattle.std.specs.Option.{is_some};
ghost use Rattle.tm_base.specs.Marker.{marker_size};
ghost use Rattle.tm_config.specs.Configuration.{longest_codeblock, most_batch, codeblock_length};
ghost use Rattle.tm_codeblock.specs.ReceivedCodeblock.{codeblock_in, is_sound};
ghost use Rattle.tm_conv.specs.Path.{farthest_step};
ghost use Rattle.tm_channel.specs.ColumnDecoding.{IsColumnDecoder};
ghost use Rattle.tm_channel.specs.Origins.{place_symbol, symbol_by};
ghost use Rattle.tm_channel.specs.Receiving.{AreItemsFor, AreWritten, IsItemAt, stored_of, waiting_bits};

use crate::expected::{Expected, take_next};
use crate::item::Item;
use crate::origins::symbol_of;
use crate::repair::repair;
use crate::slot::Slot;
use std::alloc::{AllocError, Global};
use std::marker::Model;
use tm_codeblock::{codeblock_size, column_count, columns_of};
use tm_config::{Config, LONGEST_CODEBLOCK};
use tm_gf256::Gf;
use tm_rs::Answer;
use tm_sync::{Found, NO_PLACE, RecentBits};
use tm_workers::Word;

/// Room for a batch of codeblocks, which are repaired at once; where others are looked for inside of them each is
/// repaired by the time that it is kept. A batch has as many as the configuration says.
#[derive(Drop)]
pub struct Codeblocks {
    config: Config,
    // The octets of a codeblock.
    size: usize,
    slots: Vec<Slot>,
    count: usize,
    // Those in the slots after these, which the search has not found.
    expected: Expected,
    // The columns of all codeblocks, for their repair.
    words: Vec<Word>,
}

impl Model for Codeblocks {
    ghost use Rattle.std.specs.Prelude.{◌≡◌, ◌<◌, ◌≤◌, ◌+◌, ◌*◌, drop, take, map, length};
    ghost use Rattle.tm_config.specs.Configuration.{codeblock_length, longest_codeblock, most_batch};
    ghost use Rattle.tm_channel.specs.Receiving.{Batching};
    ghost use Rattle.tm_codeblock.specs.ReceivedCodeblock.{column_count};
    ghost use Rattle.tm_channel.specs.Storing.{AreItemsIn, item_in, place_in, stored_in};

    ghost Value = { Batching };

    ghost view = { λ s. record {
      config = s.config;
      stored = map (stored_in s.size) (take s.count s.slots.items);
      symbols = map place_in (take s.count s.slots.items);
      items = map (item_in s.config) (take s.count s.slots.items);
    } };

    ghost invariant = { λ s. (s.size ≡ codeblock_length s.config) × (s.size ≤ longest_codeblock)
        × (length s.slots.items ≡ s.config.batch)
        × (length s.words.items ≡ s.config.batch * column_count s.config) × (s.count ≤ s.config.batch)
        × (0 < s.config.batch) × (s.config.batch ≤ most_batch) × (s.count + s.expected.count ≤ s.config.batch)
        × AreItemsIn s.config (take s.expected.count (drop s.count s.slots.items)) };
}

impl Codeblocks {
    /// Room for codeblocks of this configuration, with none in it, for `workers` workers. It takes all its memory here.
    pub fn open(alloc: Global, config: Config, workers: u8) -> Result<Codeblocks, AllocError>
        ensures { IfOk result (λ codeblocks. codeblocks
            ≡ record { config = config; stored = []; symbols = []; items = [] }) }
    {
        let word = Word {
            symbols: [Gf(0); 255],
            answer: None,
        };
        let slot = Slot {
            found: NO_PLACE,
            symbol: 0,
            octets: [0; LONGEST_CODEBLOCK],
            answers: [Answer::Beyond; 8],
            frame: [0; LONGEST_CODEBLOCK],
        };
        let room = config.batch() as usize;
        Ok(Codeblocks {
            config,
            size: codeblock_size(&config),
            slots: vec![in alloc; slot; room]?,
            count: 0,
            expected: Expected {
                count: 0,
                most: room,
                workers,
            },
            words: vec![in alloc; word; room * column_count(&config)]?,
        })
    }

    /// Keeps the codeblock of this place, which the bits begin with, and its symbol, but not where it is inside of
    /// another one and not sound. Returns whether it is sound; where none are looked for inside codeblocks that is not
    /// asked, and it is not repaired yet. Where it was not expected, this decoder decodes it, together with those
    /// expected behind it.
    pub fn keep<F: Fn(&Config, &mut [Word])>(
        &mut self,
        decoder: &F,
        found: Found,
        symbol: u64,
        is_inside: bool,
        recent: &RecentBits,
    ) -> bool
        requires decoder { IsColumnDecoder F.Fn decoder.now }
        requires room { length self.old.stored < self.old.config.batch }
        requires whole { marker_size + 8 * codeblock_length self.old.config ≤ length recent.now.bits }
        requires written { AreWritten self.old }
        ensures config { self.new.config ≡ self.old.config }
        ensures left { is_inside ≡ true → result ≡ false → self.new ≡ self.old }
        ensures stored { (is_inside ≡ true → IsTrue result) → self.new.stored ≡ self.old.stored
            ++ stored_of self.old.config found
            (take (8 * codeblock_length self.old.config) (drop marker_size recent.now.bits)) ∷ [] }
        ensures symbols { (is_inside ≡ true → IsTrue result)
            → self.new.symbols ≡ self.old.symbols ++ record { place = found.place; symbol = symbol } ∷ [] }
        ensures written { AreWritten self.new }
        ensures off { self.old.config.rescan ≡ false → result ≡ true }
        ensures sound { self.old.config.rescan ≡ true → result
            ≡ is_sound self.old.config (codeblock_in self.old.config found.inverted
            (take (8 * codeblock_length self.old.config) (drop marker_size recent.now.bits))) }
    {
        let size = self.size;
        let index = self.count;
        if !self.config.values().rescan {
            self.count = index + 1;
            self.expected.count = 0;
            self.slots[index].fill(&self.config, found, symbol, size, 32, recent);
            return true;
        }
        let slots = self.slots.as_mut_slice();
        let sound = take_next(
            decoder,
            &self.config,
            found,
            symbol,
            is_inside,
            &mut self.expected,
            &mut slots[index..],
            self.words.as_mut_slice(),
            recent,
        );
        if is_inside && !sound {
            return false;
        }
        self.count = index + 1;
        sound
    }

    /// The first symbol of the step of a bit, before which `octets` octets are of no step; with no inner code its
    /// own.
    pub fn symbol(&self, octets: u64, bit: u64) -> u64
        ensures { (is_some self.now.config.inner ≡ true → bit ≤ farthest_step)
            → symbol_by self.now.config.inner self.now.config octets bit < 2 ^ 64
            → result ≡ symbol_by self.now.config.inner self.now.config octets bit }
    {
        symbol_of(&self.config, octets, bit)
    }

    /// How many codeblocks a batch has.
    pub fn room(&self) -> usize
        ensures value { result ≡ self.now.config.batch }
        ensures some { 0 < result }
    {
        self.slots.len()
    }

    /// How many codeblocks are stored.
    pub fn count(&self) -> usize
        ensures value { result ≡ length self.now.stored }
        ensures symbols { result ≡ length self.now.symbols }
    {
        self.count
    }

    /// How many bits the codeblocks that the batch lacks, one or more, have at least with their markers: none with one
    /// worker.
    pub fn bits_lacking(&self) -> u64
        requires some { length self.now.stored < self.now.config.batch }
        ensures value { result ≡ waiting_bits self.now.config (self.now.config.batch - length self.now.stored) }
        ensures all { self.now.stored ≡ [] → result ≡ waiting_bits self.now.config self.now.config.batch }
        ensures most { result ≤ most_batch * (marker_size + 8 * longest_codeblock) }
    {
        waiting_bits(&self.config, (self.slots.len() - self.count) as u64)
    }

    /// Repairs all codeblocks that are stored, by this decoder, and writes their items, where that is not done yet.
    pub fn repair<F: Fn(&Config, &mut [Word])>(&mut self, decoder: &F)
        requires decoder { IsColumnDecoder F.Fn decoder.now }
        requires written { AreWritten self.old }
        ensures config { self.new.config ≡ self.old.config }
        ensures stored { self.new.stored ≡ self.old.stored }
        ensures symbols { self.new.symbols ≡ self.old.symbols }
        ensures repaired { AreItemsFor self.new.config self.new.stored self.new.items }
    {
        if self.config.values().rescan {
            return;
        }
        self.expected.count = 0;
        repair(
            decoder,
            &self.config,
            self.count,
            self.slots.as_mut_slice(),
            self.words.as_mut_slice(),
        );
    }

    /// What came of one of them.
    pub fn item(&self, index: usize) -> Item<'_>
        requires repaired { AreItemsFor self.now.config self.now.stored self.now.items }
        requires within { index < length self.now.stored }
        ensures item { IsItemAt self.now.config self.now.stored index result }
        ensures symbol { take (index + 1) self.now.symbols ≡ take index self.now.symbols ++ place_symbol result ∷ [] }
    {
        self.slots[index].item(&self.config)
    }

    /// Keeps no codeblock any longer.
    pub fn clear(&mut self)
        ensures config { self.new.config ≡ self.old.config }
        ensures stored { self.new.stored ≡ [] }
        ensures symbols { self.new.symbols ≡ [] }
        ensures written { AreWritten self.new }
    {
        self.count = 0;
        self.expected.count = 0;
    }
}

/// The most bits that may be buffered where a batch lacks `count` codeblocks: as many as these have at least with their
/// markers, and none where one worker decodes. Two may lie nearly in the room of one, where they are looked for inside
/// others.
pub fn waiting_bits(config: &Config, count: u64) -> u64
    requires some { 0 < count }
    requires most { count ≤ most_batch }
    ensures value { result ≡ waiting_bits config.now count }
    ensures most { result ≤ most_batch * (marker_size + 8 * longest_codeblock) }
{
    if config.workers() < 2 {
        return 0;
    }
    let unit = 32 + 8 * codeblock_size(config) as u64;
    match columns_of(config) {
        None => count * unit,
        Some(columns) => {
            let reach = u64::from(columns.stride * columns.strength);
            unit + (count - 1) / 2 * (unit - reach + 1)
        }
    }
}
