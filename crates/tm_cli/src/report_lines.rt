// The lines of a report.
ghost use Rattle.std.specs.Prelude.{◌≡◌, ◌+◌, ◌*◌, ◌≤◌, ◌++◌, [], length, flat_map, OnOk, OnErr};
ghost use Rattle.tm_base.specs.Outside.{HasCause};
ghost use Rattle.tm_base.specs.Written.{Wrote, WrotePrefix};
ghost use Rattle.tm_driver.specs.Lines.{line_room};
ghost use Rattle.tm_cli.specs.Lines.{marker_text, answer_room, answer_text, answers_text, item_text, report_end_text, totals_text};

use crate::counts::Counts;
use tm_base::{Failed, Sink};
use tm_channel::{Answer, Item, Totals};
use tm_driver::{Line, add_slips};

// Adds how a marker matched, and in which polarity.
fn add_marker(line: &mut Line, bridged: bool, distance: u8, inverted: bool)
    requires { length line.old + 38 ≤ line_room }
    ensures text { line.new ≡ line.old ++ marker_text bridged distance inverted }
    ensures length { length line.new ≤ length line.old + 38 }
{
    line.text(if bridged { b" bridged " } else { b" marker " });
    line.number(distance as u64);
    if inverted {
        line.text(b" inverted");
    }
}

// Adds what became of a column.
fn add_answer(line: &mut Line, answer: Answer)
    requires { length line.old + answer_room ≤ line_room }
    ensures text { line.new ≡ line.old ++ answer_text answer }
    ensures length { length line.new ≤ length line.old + answer_room }
{
    match answer {
        Answer::Fixed(count) => {
            line.text(b" ");
            line.number(count as u64);
        }
        Answer::Beyond => line.text(b" x"),
    }
}

// Adds what became of each column.
fn add_each_answer(line: &mut Line, answers: &[Answer])
    requires { length line.old + answer_room * length answers.now ≤ line_room }
    ensures text { line.new ≡ line.old ++ flat_map answer_text answers.now }
    ensures length { length line.new ≤ length line.old + answer_room * length answers.now }
{
    for answer in answers {
        add_answer(line, *answer);
    }
}

// Adds what became of the columns.
fn add_answers(line: &mut Line, answers: &[Answer])
    requires { length line.old + 8 + answer_room * length answers.now ≤ line_room }
    ensures text { line.new ≡ line.old ++ answers_text answers.now }
    ensures length { length line.new ≤ length line.old + 8 + answer_room * length answers.now }
{
    if answers.is_empty() {
        line.text(b" uncoded");
    } else {
        line.text(b" words");
        add_each_answer(line, answers);
    }
}

/// Adds what was received at a place, the item of this number: `frame K at P marker D words A1 .. AI`, where `bridged`
/// stands for `marker` at a place where none matched, ` inverted` after D of an inverted codeblock, x for a column that
/// is uncorrectable, and `uncoded` for the columns with no outer code.
pub fn add_item(line: &mut Line, number: u64, item: &Item<'_>)
    requires { line.old ≡ [] }
    ensures { line.new ≡ item_text number item.now }
{
    line.text(b"frame ");
    line.number(number);
    line.text(b" at ");
    line.number(item.place);
    add_marker(line, item.bridged, item.distance, item.inverted);
    add_answers(line, item.answers);
    line.text(b"\n");
}

/// Writes what was received at a place, the item of this number. `Failed` comes only where the sink's count of faults
/// rose.
pub fn frame_line<O: Sink>(out: &mut O, number: u64, item: &Item<'_>) -> Result<(), Failed>
    ensures ok { OnOk result (Wrote (O.taken out.old) (O.taken out.new) (item_text number item.now)) }
    ensures err { OnErr result (WrotePrefix (O.taken out.old) (O.taken out.new) (item_text number item.now)) }
    ensures cause { HasCause (O.faults out.old) (O.faults out.new) (O.is_last out.new) result }
{
    let mut line = Line::new();
    add_item(&mut line, number, item);
    line.put(out)
}

/// Writes the end of a report: `frames G bad B fixed S bits N`, with the codeblocks without and with an uncorrectable
/// column, the symbols repaired and the bits received. `Failed` comes only where the sink's count of faults rose.
pub fn frames_line<O: Sink>(
    out: &mut O,
    good: u64,
    bad: u64,
    fixed: u64,
    bits: u64,
) -> Result<(), Failed>
    ensures ok { OnOk result (Wrote (O.taken out.old) (O.taken out.new) (report_end_text good bad fixed bits)) }
    ensures err { OnErr result (WrotePrefix (O.taken out.old) (O.taken out.new) (report_end_text good bad fixed bits)) }
    ensures cause { HasCause (O.faults out.old) (O.faults out.new) (O.is_last out.new) result }
{
    let mut line = Line::new();
    add_frames(&mut line, good, bad, fixed, bits);
    line.put(out)
}

// Adds the last line of a report.
fn add_frames(line: &mut Line, good: u64, bad: u64, fixed: u64, bits: u64)
    requires { length line.old + 106 ≤ line_room }
    ensures { line.new ≡ line.old ++ report_end_text good bad fixed bits }
{
    line.text(b"frames ");
    line.number(good);
    line.text(b" bad ");
    line.number(bad);
    line.text(b" fixed ");
    line.number(fixed);
    line.text(b" bits ");
    line.number(bits);
    line.text(b"\n");
}

/// The end of a report with `slips N` before it, before how many windows octets were dropped, where the symbol phase is
/// followed.
pub fn totals_text(counts: Counts, totals: Totals) -> Line
    ensures { result ≡ totals_text counts totals }
{
    let mut line = Line::new();
    add_slips(&mut line, totals.slips);
    add_frames(
        &mut line,
        counts.good,
        counts.bad,
        counts.fixed,
        totals.bits,
    );
    line
}
