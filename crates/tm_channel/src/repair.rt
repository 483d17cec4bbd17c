// The repair of codeblocks, all columns at once.
ghost use Rattle.std.specs.Prelude.{◌≢◌, ◌≡◌, ◌<◌, ◌≤◌, ◌*◌, length, map, take};
ghost use Rattle.tm_config.specs.Configuration.{codeblock_length, most_batch};
ghost use Rattle.tm_codeblock.specs.ReceivedCodeblock.{column_count};
ghost use Rattle.tm_channel.specs.ColumnDecoding.{IsColumnDecoder};
ghost use Rattle.tm_channel.specs.Items.{IsItem};
ghost use Rattle.tm_channel.specs.Receiving.{AreItemsFor};
ghost use Rattle.tm_channel.specs.Storing.{AreDecoded, AreRead, item_in, place_in, stored_in};

use crate::column_words::{decode_columns_alone, read_columns};
use crate::slot::Slot;
use std::slice::from_ref;
use tm_codeblock::{codeblock_size, column_count, has_code};
use tm_config::{Config, OuterCode};
use tm_workers::Word;

/// Repairs the codeblocks of the first slots by this decoder, and writes their items. There are words for the columns
/// of all.
pub fn repair<F: Fn(&Config, &mut [Word])>(
    decoder: &F,
    config: &Config,
    count: usize,
    slots: &mut [Slot],
    words: &mut [Word],
)
    requires decoder { IsColumnDecoder F.Fn decoder.now }
    requires count { count ≤ length slots.old }
    requires slots { length slots.old ≤ most_batch }
    requires words { length words.old ≡ length slots.old * column_count config.now }
    ensures stored { map (stored_in (codeblock_length config.now)) (take count slots.new)
        ≡ map (stored_in (codeblock_length config.now)) (take count slots.old) }
    ensures places { map place_in (take count slots.new) ≡ map place_in (take count slots.old) }
    ensures items { AreItemsFor config.now (map (stored_in (codeblock_length config.now)) (take count slots.old))
        (map (item_in config.now) (take count slots.new)) }
    ensures slots { length slots.new ≡ length slots.old }
    ensures words { length words.new ≡ length words.old }
{
    let size = count * column_count(config);
    let slots = &mut slots[..count];
    let words = &mut words[..size];
    decode(decoder, config, slots, words);
    write_items(config, words, slots);
}

/// Repairs the codeblock of a slot, one column after another, and writes its item.
pub fn repair_slot(config: &Config, slot: &mut Slot, words: &mut [Word])
    requires words { column_count config.now ≤ length words.old }
    ensures stored { stored_in (codeblock_length config.now) slot.new
        ≡ stored_in (codeblock_length config.now) slot.old }
    ensures place { place_in slot.new ≡ place_in slot.old }
    ensures item { IsItem config.now slot.old.found (take (codeblock_length config.now) slot.old.octets)
        (item_in config.now slot.new) }
    ensures words { length words.new ≡ length words.old }
{
    let count = column_count(config);
    let words = &mut words[..count];
    decode(&decode_columns_alone, config, from_ref(slot), words);
    slot.write_item(config, words);
}

// Decodes the columns of all codeblocks.
fn decode<F: Fn(&Config, &mut [Word])>(
    decoder: &F,
    config: &Config,
    slots: &[Slot],
    words: &mut [Word],
)
    requires decoder { IsColumnDecoder F.Fn decoder.now }
    requires slots { length slots.now ≤ most_batch }
    requires words { length words.old ≡ length slots.now * column_count config.now }
    ensures decoded { AreDecoded config.now slots.now words.new }
    ensures length { length words.new ≡ length words.old }
{
    if has_code(config) {
        read_slots(config, slots, words);
        decoder(config, words);
    }
}

// Reads the columns of all codeblocks.
fn read_slots(config: &Config, slots: &[Slot], words: &mut [Word])
    requires coded { config.now.code ≢ OuterCode.Uncoded }
    requires slots { length slots.now ≤ most_batch }
    requires words { length words.old ≡ length slots.now * config.now.depth }
    ensures read { AreRead config.now slots.now words.new }
    ensures length { length words.new ≡ length words.old }
{
    let depth = config.depth() as usize;
    let size = codeblock_size(config);
    for index in 0..slots.len() {
        let first = index * depth;
        read_columns(
            config,
            &slots[index].octets[..size],
            &mut words[first..first + depth],
        );
    }
}

// Writes the items of all codeblocks, whose columns were decoded.
fn write_items(config: &Config, words: &[Word], slots: &mut [Slot])
    requires slots { length slots.old ≤ most_batch }
    requires words { length words.now ≡ length slots.old * column_count config.now }
    requires decoded { AreDecoded config.now slots.old words.now }
    ensures stored { map (stored_in (codeblock_length config.now)) slots.new
        ≡ map (stored_in (codeblock_length config.now)) slots.old }
    ensures places { map place_in slots.new ≡ map place_in slots.old }
    ensures items { AreItemsFor config.now (map (stored_in (codeblock_length config.now)) slots.old)
        (map (item_in config.now) slots.new) }
    ensures length { length slots.new ≡ length slots.old }
{
    let count = column_count(config);
    for index in 0..slots.len() {
        let first = index * count;
        slots[index].write_item(config, &words[first..first + count]);
    }
}
