// The lines that several commands write.
ghost use Rattle.std.specs.Prelude.{◌≡◌, ◌+◌, ◌≤◌, ◌++◌, length};
ghost use Rattle.tm_driver.specs.Lines.{left_over_text, line_room, outcome_by, phase_text, slips_text};
ghost use Rattle.tm_driver.specs.Writing.{Note};

use crate::ending::Outcome;
use crate::line::Line;
use crate::text_taker::TextTaker;

// How many octets follow the last whole frame or record, where there are some.
fn left_over_text(rest: u32) -> Line
    ensures { result ≡ left_over_text rest }
{
    let mut line = Line::new();
    if rest != 0 {
        line.text(b"left over ");
        line.number(rest as u64);
        line.text(b"\n");
    }
    line
}

// What comes of an input by that.
fn outcome_by(rest: u32) -> Outcome
    ensures { result ≡ outcome_by rest }
{
    if rest == 0 {
        Outcome::Done
    } else {
        Outcome::LeftOver
    }
}

/// Gives to the notes how many octets follow the last whole frame or record, where there are some, and returns what came
/// of the input by that.
pub fn note_rest<W: TextTaker>(texts: &mut W, rest: u32) -> Outcome
    ensures outcome { result ≡ outcome_by rest }
    ensures given { W.took texts.old (Note (left_over_text rest)) texts.new }
{
    texts.note(left_over_text(rest).octets());
    outcome_by(rest)
}

/// The symbol phase that was chosen: `phase S cost C`, with the octets skipped and the cost of the best path after
/// them.
pub fn phase_text(skip: u8, cost: u64) -> Line
    ensures { result ≡ phase_text skip cost }
{
    let mut line = Line::new();
    line.text(b"phase ");
    line.number(skip as u64);
    line.text(b" cost ");
    line.number(cost);
    line.text(b"\n");
    line
}

/// Adds before how many windows octets were dropped, a line of its own: `slips N`; nothing where the symbol phase is
/// not followed.
pub fn add_slips(line: &mut Line, slips: Option<u64>)
    requires { length line.old + 27 ≤ line_room }
    ensures text { line.new ≡ line.old ++ slips_text slips }
    ensures length { length line.new ≤ length line.old + 27 }
{
    if let Some(count) = slips {
        line.text(b"slips ");
        line.number(count);
        line.text(b"\n");
    }
}
