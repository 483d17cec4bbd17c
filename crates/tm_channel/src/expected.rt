// Expected codeblocks: each stands right behind another one, after a marker that matches in the same polarity. They are
// decoded together, before the search has found them. The search alone decides which of them it finds, and where it
// finds another one, those that are expected are dropped.
ghost use Rattle.std.specs.Prelude.{◌≡◌, ◌<◌, ◌≤◌, ◌+◌, ◌*◌, ◌∷◌, [], IsTrue, true, false, drop, length, map, take};
ghost use Rattle.tm_base.specs.Marker.{marker_size};
ghost use Rattle.tm_config.specs.Configuration.{codeblock_length, most_batch};
ghost use Rattle.tm_codeblock.specs.ReceivedCodeblock.{codeblock_in, column_count, is_sound};
ghost use Rattle.tm_channel.specs.ColumnDecoding.{IsColumnDecoder};
ghost use Rattle.tm_channel.specs.Receiving.{AreItemsFor, stored_of};
ghost use Rattle.tm_channel.specs.Storing.{AreItemsIn, item_in, place_in, stored_in};

use crate::column_words::decode_columns_alone;
use crate::item::are_fixed;
use crate::repair::{repair, repair_slot};
use crate::slot::Slot;
use tm_base::MARKER;
use tm_codeblock::{codeblock_size, column_count, has_code, read_codeblock};
use tm_config::{Config, LONGEST_CODEBLOCK};
use tm_sync::{Found, RecentBits};
use tm_workers::Word;

// Fewer columns are decoded by the caller alone, since starting threads would take longer.
const LEAST_SHARED: usize = 64;

/// The expected codeblocks that are decoded.
#[derive(Clone, Copy)]
pub struct Expected {
    /// How many these are, in the first slots that are free.
    pub count: usize,
    /// How many codeblocks were to be decoded together the last time, at most.
    pub most: usize,
    /// How many workers decode them: where it is one, none is expected.
    pub workers: u8,
}

/// Puts the codeblock of a place, which the bits begin with, and its symbol into the first slot, with its item, but not
/// where it is inside of another one and not sound. Returns whether it is sound. It was expected, or is decoded now, by
/// this decoder, together with those expected behind it.
pub fn take_next<F: Fn(&Config, &mut [Word])>(
    decoder: &F,
    config: &Config,
    found: Found,
    symbol: u64,
    is_inside: bool,
    expected: &mut Expected,
    slots: &mut [Slot],
    words: &mut [Word],
    recent: &RecentBits,
) -> bool
    requires decoder { IsColumnDecoder F.Fn decoder.now }
    requires slots { (0 < length slots.old) × (length slots.old ≤ most_batch) }
    requires words { length slots.old * column_count config.now ≤ length words.old }
    requires whole { marker_size + 8 * codeblock_length config.now ≤ length recent.now.bits }
    requires expected { (expected.old.count ≤ length slots.old)
        × AreItemsIn config.now (take expected.old.count slots.old) }
    ensures sound { result ≡ is_sound config.now (codeblock_in config.now found.inverted
        (take (8 * codeblock_length config.now) (drop marker_size recent.now.bits))) }
    ensures stored { (is_inside ≡ true → IsTrue result)
        → map (stored_in (codeblock_length config.now)) (take 1 slots.new) ≡ stored_of config.now found
        (take (8 * codeblock_length config.now) (drop marker_size recent.now.bits)) ∷ [] }
    ensures places { (is_inside ≡ true → IsTrue result)
        → map place_in (take 1 slots.new) ≡ record { place = found.place; symbol = symbol } ∷ [] }
    ensures expected { (is_inside ≡ true → IsTrue result) → (expected.new.count < length slots.new)
        × AreItemsIn config.now (take (expected.new.count + 1) slots.new) }
    ensures left { is_inside ≡ true → result ≡ false → (expected.new.count ≤ length slots.new)
        × AreItemsIn config.now (take expected.new.count slots.new) }
    ensures slots { length slots.new ≡ length slots.old }
    ensures words { length words.new ≡ length words.old }
{
    if is_inside {
        return take_sound(config, found, symbol, expected, slots, words, recent);
    }
    put_next(
        decoder, config, found, symbol, expected, slots, words, recent,
    );
    are_fixed(slots[0].item(config).answers)
}

// Puts the codeblock of a place, which the bits begin with, and its symbol into the first slot, with its item, where it
// is sound, and returns whether it is. Those that are expected stay so unless it is.
fn take_sound(
    config: &Config,
    found: Found,
    symbol: u64,
    expected: &mut Expected,
    slots: &mut [Slot],
    words: &mut [Word],
    recent: &RecentBits,
) -> bool
    requires slots { (0 < length slots.old) × (length slots.old ≤ most_batch) }
    requires words { column_count config.now ≤ length words.old }
    requires whole { marker_size + 8 * codeblock_length config.now ≤ length recent.now.bits }
    requires expected { (expected.old.count ≤ length slots.old)
        × AreItemsIn config.now (take expected.old.count slots.old) }
    ensures sound { result ≡ is_sound config.now (codeblock_in config.now found.inverted
        (take (8 * codeblock_length config.now) (drop marker_size recent.now.bits))) }
    ensures stored { IsTrue result → map (stored_in (codeblock_length config.now)) (take 1 slots.new)
        ≡ stored_of config.now found
        (take (8 * codeblock_length config.now) (drop marker_size recent.now.bits)) ∷ [] }
    ensures places { IsTrue result
        → map place_in (take 1 slots.new) ≡ record { place = found.place; symbol = symbol } ∷ [] }
    ensures expected { IsTrue result → (expected.new.count < length slots.new)
        × AreItemsIn config.now (take (expected.new.count + 1) slots.new) }
    ensures left { result ≡ false → (expected.new.count ≤ length slots.new)
        × AreItemsIn config.now (take expected.new.count slots.new) }
    ensures slots { length slots.new ≡ length slots.old }
    ensures words { length words.new ≡ length words.old }
{
    // It is put behind the others; where there is no slot left the last of these goes.
    let index = expected.count.min(slots.len() - 1);
    slots[index].fill(config, found, symbol, codeblock_size(config), 32, recent);
    repair_slot(config, &mut slots[index], words);
    if !are_fixed(slots[index].item(config).answers) {
        expected.count = index;
        return false;
    }
    slots[0] = slots[index];
    expected.count = 0;
    true
}

// Puts the codeblock of a place, which the bits begin with, and its symbol into the first slot, with its item.
fn put_next<F: Fn(&Config, &mut [Word])>(
    decoder: &F,
    config: &Config,
    found: Found,
    symbol: u64,
    expected: &mut Expected,
    slots: &mut [Slot],
    words: &mut [Word],
    recent: &RecentBits,
)
    requires decoder { IsColumnDecoder F.Fn decoder.now }
    requires slots { (0 < length slots.old) × (length slots.old ≤ most_batch) }
    requires words { length slots.old * column_count config.now ≤ length words.old }
    requires whole { marker_size + 8 * codeblock_length config.now ≤ length recent.now.bits }
    requires expected { (expected.old.count ≤ length slots.old)
        × AreItemsIn config.now (take expected.old.count slots.old) }
    ensures stored { map (stored_in (codeblock_length config.now)) (take 1 slots.new) ≡ stored_of config.now found
        (take (8 * codeblock_length config.now) (drop marker_size recent.now.bits)) ∷ [] }
    ensures places { map place_in (take 1 slots.new) ≡ record { place = found.place; symbol = symbol } ∷ [] }
    ensures expected { (expected.new.count < length slots.new)
        × AreItemsIn config.now (take (expected.new.count + 1) slots.new) }
    ensures slots { length slots.new ≡ length slots.old }
    ensures words { length words.new ≡ length words.old }
{
    if expected.count > 0 && is_same(config, found.inverted, &slots[0], recent) {
        expected.count -= 1;
        slots[0].found = found;
        slots[0].symbol = symbol;
        return;
    }
    let most = most_expected(config, expected, recent).min(slots.len());
    let count = read_expected(config, found, symbol, &mut slots[..most], recent);
    repair_expected(decoder, config, count, slots, words);
    expected.count = count - 1;
}

// How many codeblocks to decode together at most: twice as many as the last time, from one on where some of those were
// of no use; and one where so few are in the room that several workers do not share them out.
fn most_expected(config: &Config, expected: &mut Expected, recent: &RecentBits) -> usize
    ensures some { 0 < result }
    ensures alone { expected.old.workers ≤ 1 → result ≡ 1 }
    ensures same { expected.new.count ≡ expected.old.count }
{
    if expected.count > 0 {
        expected.most = 0;
    }
    let unit = 32 + 8 * codeblock_size(config);
    let least = LEAST_SHARED / column_count(config).max(1);
    if !has_code(config) || recent.count() / unit < least {
        return 1;
    }
    if expected.workers < 2 {
        return 1;
    }
    expected.most = expected.most.saturating_add(expected.most).max(1);
    expected.most
}

// Whether a slot has the octets of the codeblock that the bits begin with, received in this polarity.
fn is_same(config: &Config, inverted: bool, slot: &Slot, recent: &RecentBits) -> bool
    requires whole { marker_size + 8 * codeblock_length config.now ≤ length recent.now.bits }
    ensures { IsTrue result → take (codeblock_length config.now) slot.now.octets
        ≡ codeblock_in config.now inverted
        (take (8 * codeblock_length config.now) (drop marker_size recent.now.bits)) }
{
    let size = codeblock_size(config);
    let mut room = [0; LONGEST_CODEBLOCK];
    let octets = &mut room[..size];
    recent.copy(32, octets);
    read_codeblock(config, inverted, octets);
    &*octets == &slot.octets[..size]
}

// Reads the codeblock of a place, which the bits begin with, into the first slot, and into the next ones those that are
// whole and stand one right behind another after it, each with a marker that matches in the same polarity. Returns how
// many.
fn read_expected(
    config: &Config,
    found: Found,
    symbol: u64,
    slots: &mut [Slot],
    recent: &RecentBits,
) -> usize
    requires slots { (0 < length slots.old) × (length slots.old ≤ most_batch) }
    requires whole { marker_size + 8 * codeblock_length config.now ≤ length recent.now.bits }
    ensures stored { map (stored_in (codeblock_length config.now)) (take 1 slots.new) ≡ stored_of config.now found
        (take (8 * codeblock_length config.now) (drop marker_size recent.now.bits)) ∷ [] }
    ensures places { map place_in (take 1 slots.new) ≡ record { place = found.place; symbol = symbol } ∷ [] }
    ensures count { (0 < result) × (result ≤ length slots.new) }
    ensures slots { length slots.new ≡ length slots.old }
{
    let size = codeblock_size(config);
    let unit = 32 + 8 * size;
    let bits = recent.count();
    slots[0].fill(config, found, symbol, size, 32, recent);
    let upright = u32::from_be_bytes(MARKER);
    let marker = if found.inverted { !upright } else { upright };
    let mut count = 1;
    let mut at = unit;
    while count < slots.len() && at + unit <= bits {
        let wrong = (recent.word(at) ^ marker).count_ones();
        if u64::from(wrong) > config.tolerance() {
            return count;
        }
        slots[count].fill(config, found, symbol, size, at + 32, recent);
        count += 1;
        at += unit;
    }
    count
}

// Repairs the codeblocks of the first slots, by this decoder where they are many.
fn repair_expected<F: Fn(&Config, &mut [Word])>(
    decoder: &F,
    config: &Config,
    count: usize,
    slots: &mut [Slot],
    words: &mut [Word],
)
    requires decoder { IsColumnDecoder F.Fn decoder.now }
    requires count { count ≤ length slots.old }
    requires slots { length slots.old ≤ most_batch }
    requires words { length slots.old * column_count config.now ≤ length words.old }
    ensures stored { map (stored_in (codeblock_length config.now)) (take count slots.new)
        ≡ map (stored_in (codeblock_length config.now)) (take count slots.old) }
    ensures places { map place_in (take count slots.new) ≡ map place_in (take count slots.old) }
    ensures items { AreItemsFor config.now (map (stored_in (codeblock_length config.now)) (take count slots.old))
        (map (item_in config.now) (take count slots.new)) }
    ensures slots { length slots.new ≡ length slots.old }
    ensures words { length words.new ≡ length words.old }
{
    let columns = column_count(config);
    let size = slots.len() * columns;
    let words = &mut words[..size];
    if count * columns < LEAST_SHARED {
        repair(&decode_columns_alone, config, count, slots, words);
    } else {
        repair(decoder, config, count, slots, words);
    }
}
