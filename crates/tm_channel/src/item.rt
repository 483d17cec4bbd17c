// What the receiver hands over, and to whom.
ghost use Rattle.std.specs.Prelude.{◌≡◌, ℕ, OnErr, OnOk};
ghost use Rattle.tm_base.specs.Outside.{HasCause};
ghost use Rattle.tm_channel.specs.Items.{ItemValue, are_fixed};

use std::marker::Model;
use tm_base::Failed;
use tm_rs::Answer;

/// What is said of a codeblock that was found (CCSDS 131.0-B, Frame Synchronization and Reed-Solomon Coding). It has at
/// most eight answers.
#[derive(Debug, Drop)]
pub struct Item<'a> {
    /// How many received bits stand before its marker.
    pub place: u64,
    /// The number, from 0, of the first symbol of its marker among all octets that were given, or with no inner code and
    /// packed bits among all bits, those counted that were skipped or dropped. With an inner code it is the first symbol
    /// of the step of the marker's first bit.
    pub symbol: u64,
    /// How many of the marker's 32 bits are wrong, in the codeblock's polarity.
    pub distance: u8,
    /// Whether the marker matches in no way, and its place was taken since it directly follows a codeblock.
    pub bridged: bool,
    /// Whether the codeblock was received inverted.
    pub inverted: bool,
    /// What became of each column; none with no outer code.
    pub answers: &'a [Answer],
    /// The octets of the transfer frame. Where a column is uncorrectable there are none, or where what is left of such a
    /// frame is passed, that column's data octets stand in it as they were received.
    pub frame: &'a [u8],
}

impl<'a> Model for Item<'a> {
    ghost use Rattle.std.specs.Prelude.{◌≤◌, length};
    ghost use Rattle.tm_config.specs.Configuration.{deepest};
    ghost use Rattle.tm_channel.specs.Items.{ItemValue};

    ghost Value = { ItemValue };

    ghost view = { λ i. record {
      found = record { place = i.place; distance = i.distance; bridged = i.bridged; inverted = i.inverted };
      symbol = i.symbol;
      answers = i.answers.now;
      frame = i.frame.now;
    } };

    ghost invariant = { λ i. length i.answers.now ≤ deepest };
}

/// What takes the symbol phase, where it is to be found, and then items, one after another. It counts its faults, and
/// the count never falls.
pub trait ItemTaker {
    /// How often a call has failed.
    ghost faults: { Self → ℕ };

    /// The count of faults stands at its last value, so that it can't rise.
    ghost is_last: { Self → Type 0 };

    /// What taking an item does to the taker.
    ghost took: { Self → ItemValue → Self → Type 0 };

    /// What an item does at which the taker fails.
    ghost broke: { Self → ItemValue → Self → Type 0 };

    /// What taking the symbol phase does: how many octets are skipped, and what the best path after them costs.
    ghost took_phase: { Self → ℕ → ℕ → Self → Type 0 };

    /// What a symbol phase does at which the taker fails.
    ghost broke_phase: { Self → ℕ → ℕ → Self → Type 0 };

    /// Takes the next item. `Failed` comes only where the count of faults rose.
    fn item(&mut self, item: &Item<'_>) -> Result<(), Failed>
        ensures ok { OnOk result (took self.old item.now self.new) }
        ensures err { OnErr result (broke self.old item.now self.new) }
        ensures cause { HasCause (faults self.old) (faults self.new) (is_last self.new) result };

    /// Takes the symbol phase that was chosen: `skip` octets, after which the best path costs `cost`. `Failed` comes
    /// only where the count of faults rose.
    fn phase(&mut self, skip: u8, cost: u64) -> Result<(), Failed>
        ensures ok { OnOk result (took_phase self.old skip cost self.new) }
        ensures err { OnErr result (broke_phase self.old skip cost self.new) }
        ensures cause { HasCause (faults self.old) (faults self.new) (is_last self.new) result };
}

/// What is handed the symbol phase, where it is to be found, and then items, one after another. It never fails.
pub trait ItemWatch {
    /// What an item does to it.
    ghost took: { Self → ItemValue → Self → Type 0 };

    /// What the symbol phase does: how many octets are skipped, and what the best path after them costs.
    ghost took_phase: { Self → ℕ → ℕ → Self → Type 0 };

    /// Takes the next item.
    fn item(&mut self, item: &Item<'_>)
        ensures { took self.old item.now self.new };

    /// Takes the symbol phase that was chosen: `skip` octets, after which the best path costs `cost`.
    fn phase(&mut self, skip: u8, cost: u64)
        ensures { took_phase self.old skip cost self.new };
}

/// Whether no answer is `Beyond`.
pub fn are_fixed(answers: &[Answer]) -> bool
    ensures { result ≡ are_fixed answers.now }
{
    for answer in answers {
        match answer {
            Answer::Fixed(_) => {}
            Answer::Beyond => return false,
        }
    }
    true
}
