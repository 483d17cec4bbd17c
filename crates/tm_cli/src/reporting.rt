// What takes items: it gives their frames and lines, and counts.
ghost use Rattle.tm_cli.specs.Lines.{totals_text};
ghost use Rattle.tm_cli.specs.Taken.{IsOutcome};
ghost use Rattle.tm_driver.specs.Writing.{Note};

use crate::counts::Counts;
use crate::report_lines::{add_item, totals_text};
use tm_channel::{Item, ItemWatch, Totals};
use tm_driver::{Line, Outcome, TextTaker, phase_text};

/// Gives the frame of each item for the output and then its line for the notes, and counts it; of the symbol phase it
/// gives the line.
#[derive(Drop)]
pub struct Reporting<'a, W> {
    pub texts: &'a mut W,
    pub counts: Counts,
}

impl<'a, W: TextTaker> ItemWatch for Reporting<'a, W> {
    ghost use Rattle.std.specs.Prelude.{◌≡◌};
    ghost use Rattle.tm_cli.specs.Taken.{Reported, reported_phase};

    ghost took = { λ a item b. (b.texts.ghost_name ≡ a.texts.ghost_name)
        × Reported W.took a.counts b.counts a.texts.now b.texts.now item };

    ghost took_phase = { λ a skip cost b. (b.texts.ghost_name ≡ a.texts.ghost_name)
        × reported_phase W.took a.counts b.counts a.texts.now b.texts.now skip cost };

    fn item(&mut self, item: &Item<'_>) {
        self.texts.out(item.frame);
        let mut line = Line::new();
        add_item(&mut line, self.counts.number(), item);
        self.texts.note(line.octets());
        self.counts.add(item.answers);
    }

    fn phase(&mut self, skip: u8, cost: u64) {
        self.texts.note(phase_text(skip, cost).octets());
    }
}

/// Gives the end of the report of octets that came to this, whose items are counted. Returns what came of them.
pub fn end_report<W: TextTaker>(texts: &mut W, counts: Counts, totals: Totals) -> Outcome
    ensures given { W.took texts.old (Note (totals_text counts totals)) texts.new }
    ensures outcome { IsOutcome counts.bad result }
{
    texts.note(totals_text(counts, totals).octets());
    if counts.bad == 0 {
        Outcome::Done
    } else {
        Outcome::Bad
    }
}
