// Codeblocks: the randomizer, and columns.
ghost use Rattle.std.specs.Prelude.{◌≡◌, ◌≢◌, ◌<◌, ◌*◌, ℕ, None, length, pos};
ghost use Rattle.tm_codeblock.specs.Column.{column};
ghost use Rattle.tm_codeblock.specs.Masked.{masked};
ghost use Rattle.tmchan_c.specs.Refusal.{answered, column_refusal};

use crate::refusal::Refusal;
use tm_codeblock::{mask, put_word, take_word};

/// Adds the pseudo-random sequence to a codeblock, from its start, or takes it off again.
#[unsafe(no_mangle)]
pub extern "C" fn tmchan_randomize(block: &mut [u8])
    ensures { block.new ≡ masked block.old }
{
    mask(block);
}

/// Copies the column of this index out of a codeblock of this interleaving depth. Returns 0, or the reason of the
/// refusal.
#[unsafe(no_mangle)]
pub extern "C" fn tmchan_take_column(depth: u32, index: u32, block: &[u8], word: &mut [u8]) -> i32
    ensures answer { result ≡ answered (column_refusal depth index (length block.now) (length word.old)) }
    ensures column { result ≡ pos 0 → word.new ≡ column depth index block.now }
    ensures unchanged { result ≢ pos 0 → word.new ≡ word.old }
{
    match column_refusal(depth as usize, index as usize, block.len(), word.len()) {
        Some(refusal) => refusal.answer(),
        None => {
            take_word(block, depth as usize, index as usize, word);
            0
        }
    }
}

/// Replaces the column of this index in a codeblock of this interleaving depth. Returns 0, or the reason of the
/// refusal.
#[unsafe(no_mangle)]
pub extern "C" fn tmchan_put_column(depth: u32, index: u32, block: &mut [u8], word: &[u8]) -> i32
    ensures answer { result ≡ answered (column_refusal depth index (length block.old) (length word.now)) }
    ensures column { result ≡ pos 0 → column depth index block.new ≡ word.now }
    ensures others { (j : ℕ) → j < depth → j ≢ index → column depth j block.new ≡ column depth j block.old }
    ensures unchanged { result ≢ pos 0 → block.new ≡ block.old }
{
    match column_refusal(depth as usize, index as usize, block.len(), word.len()) {
        Some(refusal) => refusal.answer(),
        None => {
            put_word(block, depth as usize, index as usize, word);
            0
        }
    }
}

// The first reason to refuse a column of a block, or a word of another size.
fn column_refusal(depth: usize, index: usize, block: usize, word: usize) -> Option<Refusal>
    ensures value { result ≡ column_refusal depth index block word }
    ensures column { result ≡ None → index < depth }
    ensures size { result ≡ None → block ≡ depth * word }
{
    if index >= depth {
        return Some(Refusal::Column);
    }
    if depth.checked_mul(word) != Some(block) {
        return Some(Refusal::Room);
    }
    None
}
