// A codeblock that is whole, and what came of it.
ghost use Rattle.std.specs.Prelude.{◌≡◌, ◌<◌, ◌≤◌, ◌+◌, ◌*◌, drop, length, take};
ghost use Rattle.tm_config.specs.Configuration.{codeblock_length, longest_codeblock};
ghost use Rattle.tm_codeblock.specs.ReceivedCodeblock.{column_count, frame_of};
ghost use Rattle.tm_channel.specs.ColumnWords.{all_symbols};
ghost use Rattle.tm_channel.specs.Items.{IsItem};
ghost use Rattle.tm_channel.specs.Receiving.{stored_of};
ghost use Rattle.tm_channel.specs.Storing.{IsDecoded, answers_of, item_in, place_in, stored_in};

use crate::column_words::write_frame;
use crate::item::{Item, are_fixed};
use tm_codeblock::{codeblock_size, column_count, has_code, read_codeblock};
use tm_config::{Config, LONGEST_CODEBLOCK};
use tm_rs::Answer;
use tm_sync::{Found, RecentBits};
use tm_workers::Word;

/// A codeblock that is whole, and room for its item.
#[derive(Clone, Copy)]
pub struct Slot {
    pub found: Found,
    pub symbol: u64,
    pub octets: [u8; LONGEST_CODEBLOCK],
    pub answers: [Answer; 8],
    pub frame: [u8; LONGEST_CODEBLOCK],
}

impl Slot {
    /// Writes the codeblock of this place and its symbol. It stands after the first `from` bits, which end with its
    /// marker.
    pub fn fill(
        &mut self,
        config: &Config,
        found: Found,
        symbol: u64,
        size: usize,
        from: usize,
        recent: &RecentBits,
    )
        requires whole { from + 8 * size ≤ length recent.now.bits }
        requires most { size ≤ longest_codeblock }
        ensures stored { stored_in size self.new
            ≡ stored_of config.now found (take (8 * size) (drop from recent.now.bits)) }
        ensures place { place_in self.new ≡ record { place = found.place; symbol = symbol } }
    {
        self.found = found;
        self.symbol = symbol;
        recent.copy(from, &mut self.octets[..size]);
        read_codeblock(config, found.inverted, &mut self.octets[..size]);
    }

    /// Writes the item of the codeblock, whose columns were decoded in these words.
    pub fn write_item(&mut self, config: &Config, words: &[Word])
        requires words { length words.now ≡ column_count config.now }
        requires decoded { IsDecoded config.now (take (codeblock_length config.now) self.old.octets) words.now }
        ensures found { self.new.found ≡ self.old.found }
        ensures symbol { self.new.symbol ≡ self.old.symbol }
        ensures octets { self.new.octets ≡ self.old.octets }
        ensures item { IsItem config.now self.old.found (take (codeblock_length config.now) self.old.octets)
            (item_in config.now self.new) }
    {
        let count = column_count(config);
        write_answers(words, &mut self.answers[..count]);
        fill_frame(config, &self.octets, words, &mut self.frame);
    }

    /// The item that was written.
    pub fn item(&self, config: &Config) -> Item<'_>
        ensures { result ≡ item_in config.now self.now }
    {
        let answers = &self.answers[..column_count(config)];
        let size = if are_fixed(answers) || config.values().pass_bad {
            config.length() as usize
        } else {
            0
        };
        Item {
            place: self.found.place,
            symbol: self.symbol,
            distance: self.found.distance,
            bridged: self.found.bridged,
            inverted: self.found.inverted,
            answers,
            frame: &self.frame[..size],
        }
    }
}

// Writes the answers that stand in words.
fn write_answers(words: &[Word], answers: &mut [Answer])
    requires { length answers.old ≡ length words.now }
    ensures { answers.new ≡ answers_of words.now }
{
    for i in 0..words.len() {
        answers[i] = words[i].answer.unwrap_or(Answer::Beyond);
    }
}

// Writes the frame of the codeblock that `octets` begin with, as the first octets of `frame`.
fn fill_frame(config: &Config, octets: &[u8], words: &[Word], frame: &mut [u8])
    requires octets { length octets.now ≡ longest_codeblock }
    requires words { length words.now ≡ column_count config.now }
    requires frame { length frame.old ≡ longest_codeblock }
    requires decoded { IsDecoded config.now (take (codeblock_length config.now) octets.now) words.now }
    ensures { take config.now.frame_length frame.new
        ≡ frame_of config.now (take (codeblock_length config.now) octets.now) (all_symbols config.now words.now) }
{
    let size = config.length() as usize;
    if has_code(config) {
        let codeblock = &octets[..codeblock_size(config)];
        write_frame(config, codeblock, words, &mut frame[..size]);
    } else {
        frame.copy_from_slice(octets);
    }
}
