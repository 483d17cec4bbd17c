// The lines of a trace and of a certificate that is checked.
ghost use Rattle.std.specs.Prelude.{◌≡◌, ◌+◌, ◌≤◌, ◌++◌, length, OnOk, OnErr};
ghost use Rattle.tm_base.specs.Outside.{HasCause};
ghost use Rattle.tm_base.specs.Written.{Wrote, WrotePrefix};
ghost use Rattle.tm_driver.specs.Lines.{line_room};
ghost use Rattle.tm_path_commands.specs.Lines.{window_text, slip_text, block_text, trace_end_text, bits_end_text, reason_text, bad_text, cut_text};

use crate::tally::Tally;
use tm_base::{Failed, Sink};
use tm_cert_file::Reason;
use tm_driver::{Line, add_slips};
use tm_viterbi::Block;

/// A window, the one of this number: `block K steps n kept m metric M`.
pub fn window_text(number: u64, steps: u32, kept: u32, metric: u64) -> Line
    ensures { result ≡ window_text number steps kept metric }
{
    let mut line = Line::new();
    add_window(&mut line, number, steps, kept, metric);
    line
}

// Adds a window.
fn add_window(line: &mut Line, number: u64, steps: u32, kept: u32, metric: u64)
    requires { length line.old + 108 ≤ line_room }
    ensures { line.new ≡ line.old ++ window_text number steps kept metric }
{
    line.text(b"block ");
    line.number(number);
    line.text(b" steps ");
    line.number(steps as u64);
    line.text(b" kept ");
    line.number(kept as u64);
    line.text(b" metric ");
    line.number(metric);
    line.text(b"\n");
}

// Adds a line that says that `dropped` octets were dropped after `bits` bits, where some were.
fn add_slip(line: &mut Line, dropped: u8, bits: u64)
    requires { length line.old + 60 ≤ line_room }
    ensures text { line.new ≡ line.old ++ slip_text dropped bits }
    ensures length { length line.new ≤ length line.old + 60 }
{
    if dropped != 0 {
        line.text(b"slip ");
        line.number(dropped as u64);
        line.text(b" at ");
        line.number(bits);
        line.text(b"\n");
    }
}

/// A window of the soft decoder, after the windows and bits that `was` counts; and where octets were dropped before it,
/// a line before it: `slip K at B`, with the octets and the bits.
pub fn block_text(was: Tally, block: &Block<'_>) -> Line
    ensures { result ≡ block_text was block.now }
{
    let mut line = Line::new();
    add_slip(&mut line, block.dropped, was.bits);
    add_window(&mut line, was.blocks, block.steps, block.kept, block.metric);
    line
}

/// Writes a window of the soft decoder. `Failed` comes only where the sink's count of faults rose.
pub fn block_line<O: Sink>(out: &mut O, was: Tally, block: &Block<'_>) -> Result<(), Failed>
    ensures ok { OnOk result (Wrote (O.taken out.old) (O.taken out.new) (block_text was block.now)) }
    ensures err { OnErr result (WrotePrefix (O.taken out.old) (O.taken out.new) (block_text was block.now)) }
    ensures cause { HasCause (O.faults out.old) (O.faults out.new) (O.is_last out.new) result }
{
    block_text(was, block).put(out)
}

/// The end of a trace: `blocks K bits N leftover R`, with the windows, the bits received and the octets after the last
/// step.
pub fn trace_end_text(blocks: u64, bits: u64, leftover: u8) -> Line
    ensures { result ≡ trace_end_text blocks bits leftover }
{
    let mut line = Line::new();
    add_end(&mut line, blocks, bits, leftover);
    line
}

/// Writes the end of a trace. `Failed` comes only where the sink's count of faults rose.
pub fn blocks_line<O: Sink>(out: &mut O, blocks: u64, bits: u64, leftover: u8) -> Result<(), Failed>
    ensures ok { OnOk result (Wrote (O.taken out.old) (O.taken out.new) (trace_end_text blocks bits leftover)) }
    ensures err { OnErr result (WrotePrefix (O.taken out.old) (O.taken out.new) (trace_end_text blocks bits leftover)) }
    ensures cause { HasCause (O.faults out.old) (O.faults out.new) (O.is_last out.new) result }
{
    trace_end_text(blocks, bits, leftover).put(out)
}

// Adds the end of a trace.
fn add_end(line: &mut Line, blocks: u64, bits: u64, leftover: u8)
    requires { length line.old + 84 ≤ line_room }
    ensures { line.new ≡ line.old ++ trace_end_text blocks bits leftover }
{
    line.text(b"blocks ");
    line.number(blocks);
    line.text(b" bits ");
    line.number(bits);
    line.text(b" leftover ");
    line.number(leftover as u64);
    line.text(b"\n");
}

/// What is said after the bits: `slips N`, before how many windows octets were dropped, where the symbol phase is
/// followed, and the end of a trace.
pub fn bits_end_text(slips: Option<u64>, blocks: u64, bits: u64, leftover: u8) -> Line
    ensures { result ≡ bits_end_text slips blocks bits leftover }
{
    let mut line = Line::new();
    add_slips(&mut line, slips);
    add_end(&mut line, blocks, bits, leftover);
    line
}

// Adds why a window of a certificate fails.
fn add_reason(line: &mut Line, reason: Reason)
    requires { length line.old + 46 ≤ line_room }
    ensures text { line.new ≡ line.old ++ reason_text reason }
    ensures length { length line.new ≤ length line.old + 46 }
{
    match reason {
        Reason::Shape => line.text(b"shape"),
        Reason::Joint => line.text(b"joint"),
        Reason::Edge(column, register) => {
            line.text(b"edge ");
            line.number(column as u64);
            line.text(b" ");
            line.number(register as u64);
        }
        Reason::Sum(sum) => {
            line.text(b"sum ");
            line.number(sum);
        }
    }
}

/// Which window of a certificate fails, and why: `bad K shape`, `bad K joint`, `bad K edge T S` with the column and the
/// register, or `bad K sum C` with what the path costs.
pub fn bad_text(number: u64, reason: Reason) -> Line
    ensures { result ≡ bad_text number reason }
{
    let mut line = Line::new();
    line.text(b"bad ");
    line.number(number);
    line.text(b" ");
    add_reason(&mut line, reason);
    line.text(b"\n");
    line
}

/// Which window of a certificate is not whole or missing: `cut at block K`.
pub fn cut_text(number: u64) -> Line
    ensures { result ≡ cut_text number }
{
    let mut line = Line::new();
    line.text(b"cut at block ");
    line.number(number);
    line.text(b"\n");
    line
}
