// Items, in arrays.
ghost use Rattle.std.specs.Prelude.{◌≡◌, ◌≤◌, length, map, take};
ghost use Rattle.tm_config.specs.Configuration.{deepest};
ghost use Rattle.tm_buffers.specs.Reports.{IsReport, repaired_of};

use tm_channel::{Answer, Item, ItemWatch, are_fixed};

/// What is said of a codeblock that was found, but for its frame, as plain numbers.
#[repr(C)]
#[derive(Clone, Copy, Debug, PartialEq, Eq)]
pub struct Report {
    /// How many received bits stand before its marker.
    pub place: u64,
    /// The number, from 0, of the first symbol of its marker among all octets that were given, or with no inner code and
    /// packed bits among all bits, those counted that were skipped or dropped.
    pub symbol: u64,
    /// Where its frame begins among the frames that the call writes; where it has none, where the next begins.
    pub frame: u64,
    /// The octets of its frame; 0 where it has none.
    pub frame_length: u64,
    /// How many of the marker's 32 bits are wrong, in the codeblock's polarity.
    pub distance: u8,
    /// 1 where the marker matches in no way, and its place was taken since it directly follows a codeblock.
    pub bridged: u8,
    /// 1 where the codeblock was received inverted.
    pub inverted: u8,
    /// How many columns it has; 0 with no outer code.
    pub columns: u8,
    /// 1 where a column is uncorrectable.
    pub bad: u8,
    /// For each of them how many symbols were wrong, or 255 where it is uncorrectable.
    pub repaired: [u8; 8],
}

/// How much a call wrote to the start of its arrays.
#[repr(C)]
#[derive(Clone, Copy, Debug, PartialEq, Eq)]
pub struct Written {
    pub reports: u64,
    /// The octets of frames, or of what else the call writes.
    pub octets: u64,
    pub windows: u64,
}

/// Writes the frames of items to a buffer and what else is said of them to an array, from their start on. From the
/// first item on for which there is no room, all are dropped.
#[derive(Drop)]
pub struct BufferItems<'a, 'b> {
    pub frames: &'a mut [u8],
    pub reports: &'b mut [Report],
    /// How many octets and how many items were written.
    pub octets: usize,
    pub count: usize,
    /// An item was dropped.
    pub is_short: bool,
    ghost octets_within: { octets ≤ length frames.now },
    ghost within: { count ≤ length reports.now },
}

impl<'a, 'b> BufferItems<'a, 'b> {
    ghost use Rattle.std.specs.Prelude.{[]};
    ghost use Rattle.tm_buffers.specs.Items.{HasCollected};

    /// No items yet.
    pub fn over(frames: &'a mut [u8], reports: &'b mut [Report]) -> BufferItems<'a, 'b>
        ensures { HasCollected frames.entry.ghost_name reports.entry.ghost_name frames.old reports.old [] result }
    {
        BufferItems {
            frames,
            reports,
            octets: 0,
            count: 0,
            is_short: false,
        }
    }
}

impl<'a, 'b> ItemWatch for BufferItems<'a, 'b> {
    ghost use Rattle.std.specs.Prelude.{◌≡◌, ℕ, List, [], ◌∷◌, ◌++◌};
    ghost use Rattle.tm_channel.specs.Items.{ItemValue};
    ghost use Rattle.tm_buffers.specs.Items.{HasCollected};
    ghost use Rattle.tm_buffers.specs.declared.items.Report.{Report};

    ghost took = { λ a item b. (lent lent_reports : ℕ) (frames : List ℕ) (reports : List Report)
        (items : List ItemValue) → HasCollected lent lent_reports frames reports items a
        → HasCollected lent lent_reports frames reports (items ++ item ∷ []) b };

    ghost took_phase = { λ a skip cost b. b ≡ a };

    fn item(&mut self, item: &Item<'_>) {
        let size = item.frame.len();
        if self.is_short
            || self.count == self.reports.len()
            || size > self.frames.len() - self.octets
        {
            self.is_short = true;
            return;
        }
        let end = self.octets + size;
        self.frames[self.octets..end].copy_from_slice(item.frame);
        self.reports[self.count] = report_of(item, self.octets);
        self.octets = end;
        self.count += 1;
    }

    fn phase(&mut self, _skip: u8, _cost: u64) {}
}

// What is said of an item, whose frame begins there.
fn report_of(item: &Item<'_>, frame: usize) -> Report
    ensures { IsReport frame item.now result }
{
    Report {
        place: item.place,
        symbol: item.symbol,
        frame: frame as u64,
        frame_length: item.frame.len() as u64,
        distance: item.distance,
        bridged: u8::from(item.bridged),
        inverted: u8::from(item.inverted),
        columns: item.answers.len() as u8,
        bad: u8::from(!are_fixed(item.answers)),
        repaired: repaired(item.answers),
    }
}

// For each answer how many symbols were wrong.
fn repaired(answers: &[Answer]) -> [u8; 8]
    requires { length answers.now ≤ deepest }
    ensures { take (length answers.now) result ≡ map repaired_of answers.now }
{
    let mut repaired = [0; 8];
    for i in 0..answers.len() {
        repaired[i] = repaired_of(answers[i]);
    }
    repaired
}

// How many symbols were wrong.
fn repaired_of(answer: Answer) -> u8
    ensures { result ≡ repaired_of answer }
{
    match answer {
        Answer::Fixed(count) => count,
        Answer::Beyond => 255,
    }
}
