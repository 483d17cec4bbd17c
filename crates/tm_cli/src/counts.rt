// What a report counts.
ghost use Rattle.std.specs.Prelude.{◌≡◌, ◌≤◌, length};
ghost use Rattle.tm_config.specs.Configuration.{longest_codeblock, deepest};
ghost use Rattle.tm_cli.specs.Report.{fixed_of};
ghost use Rattle.tm_cli.specs.Taken.{no_counts, number_of, counts_after};

use tm_channel::{Answer, are_fixed};

/// What a report counts. Each count stops at 2^64-1.
#[derive(Clone, Copy, Debug, PartialEq, Eq)]
pub struct Counts {
    /// The codeblocks without an uncorrectable column.
    pub good: u64,
    /// The codeblocks with one.
    pub bad: u64,
    /// The symbols repaired, those of codeblocks with an uncorrectable column too.
    pub fixed: u64,
}

impl Counts {
    /// Before the first codeblock.
    pub fn new() -> Counts
        ensures { result ≡ no_counts }
    {
        Counts {
            good: 0,
            bad: 0,
            fixed: 0,
        }
    }

    /// The number of the next codeblock.
    pub fn number(&self) -> u64
        ensures { result ≡ number_of self.now }
    {
        self.good.saturating_add(self.bad)
    }

    /// Counts a codeblock whose columns have these answers.
    pub fn add(&mut self, answers: &[Answer])
        requires { length answers.now ≤ deepest }
        ensures counted { self.new ≡ counts_after self.old answers.now }
        ensures few { fixed_of answers.now ≤ longest_codeblock }
    {
        let is_good = are_fixed(answers);
        self.good = self.good.saturating_add(is_good as u64);
        self.bad = self.bad.saturating_add(!is_good as u64);
        self.fixed = self.fixed.saturating_add(fixed_of(answers));
    }
}

// The sum of the symbols repaired.
fn fixed_of(answers: &[Answer]) -> u64
    requires { length answers.now ≤ deepest }
    ensures sum { result ≡ fixed_of answers.now }
    ensures few { result ≤ longest_codeblock }
{
    let mut sum = 0;
    for answer in answers {
        if let Answer::Fixed(count) = *answer {
            sum += count as u64;
        }
    }
    sum
}
