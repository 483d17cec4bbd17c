// A window of a certificate as it is written.
ghost use Rattle.std.specs.Prelude.{◌≡◌, ◌+◌, ◌<◌, ◌≤◌, ℕ, List, IfSome, flat_map, length};
ghost use Rattle.tm_conv.specs.Path.{steps_size, registers};
ghost use Rattle.tm_conv.specs.Columns.{last_certified};
ghost use Rattle.tm_driver.specs.Writing.{TookOut};
ghost use Rattle.tm_viterbi.specs.WindowSizes.{most_window};
ghost use Rattle.tm_cert_file.specs.Window.{column_octets};
ghost use Rattle.tm_cert_file.specs.Certificate.{AreColumns, IsCertified};

use crate::numbers::{column_octets, header};
use tm_conv::{Rate, columns_law, step_len, symbols_of};
use tm_driver::TextTaker;
use tm_viterbi::{Block, Sums};

// How many symbols `steps` steps from step `t` on send.
pub(crate) fn span(rate: Rate, t: u64, steps: u64) -> usize
    requires { t + steps ≤ last_certified }
    ensures { result ≡ steps_size rate t steps }
{
    (symbols_of(rate, t + steps) - symbols_of(rate, t)) as usize
}

// Gives the columns for the soft octets of some steps from step `first`.
fn write_columns<W: TextTaker>(
    texts: &mut W,
    rate: Rate,
    invert: bool,
    first: u64,
    start: Option<u8>,
    octets: &[u8],
)
    requires first { first ≤ last_certified }
    requires start { IfSome start (λ register. register < registers) }
    requires steps { (steps : ℕ) × (steps ≤ most_window) × (length octets.now ≡ steps_size rate first steps) }
    ensures { (steps : ℕ) → length octets.now ≡ steps_size rate first steps → (columns : List (List ℕ))
        × AreColumns rate invert start first steps octets.now columns
        × TookOut W.took texts.old texts.new (flat_map column_octets columns) }
{
    columns_law();
    let mut sums = Sums::new(rate, invert, first, start);
    texts.out(&column_octets(sums.column()));
    let mut at = 0;
    let mut t = first;
    while at < octets.len() {
        let end = at + step_len(rate, t);
        sums.step(&octets[at..end]);
        texts.out(&column_octets(sums.column()));
        at = end;
        t += 1;
    }
}

/// Gives the window that certifies a block: its soft octets, of which 0 is the surest 0 and 255 the surest 1, are those
/// of the block's steps, at most 69,632, from step `first` on, at most 2^44. Paths start from the register `start`,
/// below 64, or from any at `None`.
pub fn write_window<W: TextTaker>(
    texts: &mut W,
    rate: Rate,
    invert: bool,
    first: u64,
    start: Option<u8>,
    octets: &[u8],
    block: &Block<'_>,
)
    requires first { first ≤ last_certified }
    requires start { IfSome start (λ register. register < registers) }
    requires few { block.now.steps ≤ most_window }
    requires bits { length block.now.bits ≡ block.now.steps }
    requires steps { length octets.now ≡ steps_size rate first block.now.steps }
    ensures { (text : List ℕ) × IsCertified rate invert start first octets.now block.now text
        × TookOut W.took texts.old texts.new text }
{
    columns_law();
    texts.out(&header(block.steps, block.kept, block.start, block.metric));
    texts.out(block.bits);
    texts.out(octets);
    write_columns(texts, rate, invert, first, start, octets);
}
