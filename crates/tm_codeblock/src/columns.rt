// The columns of a codeblock: at interleaving depth I its octet m belongs to column m mod I, data and check symbols
// alike, and each column is one Reed-Solomon codeword. A word is taken out of its column, or put into it.
ghost use Rattle.std.specs.Prelude.{◌≡◌, ◌≢◌, ◌*◌, ◌<◌, ℕ, length};
ghost use Rattle.tm_codeblock.specs.Column.{column};

// Copies each octet of `block` that stands a multiple of `depth` after octet `i` to `out`.
#[inline(always)]
fn take_every(block: &[u8], depth: usize, i: usize, out: &mut [u8])
    requires column { i < depth }
    requires size { length block.now ≡ depth * length out.old }
    ensures { out.new ≡ column depth i block.now }
{
    for k in 0..out.len() {
        out[k] = block[k * depth + i];
    }
}

/// Copies column `i` of `block` to `out`, where `depth` is the interleaving depth (CCSDS 131.0-B, Reed-Solomon Coding,
/// Symbol Interleaving). `i` is below `depth`, and the block is `depth` times as long as `out`.
pub fn take_word(block: &[u8], depth: usize, i: usize, out: &mut [u8])
    requires column { i < depth }
    requires size { length block.now ≡ depth * length out.old }
    ensures { out.new ≡ column depth i block.now }
{
    // Each depth of the standard apart, so that the compiler knows it.
    match depth {
        1 => take_every(block, 1, i, out),
        2 => take_every(block, 2, i, out),
        3 => take_every(block, 3, i, out),
        4 => take_every(block, 4, i, out),
        5 => take_every(block, 5, i, out),
        8 => take_every(block, 8, i, out),
        _ => take_every(block, depth, i, out),
    }
}

/// Replaces column `i` of `block` by `word`, where `depth` is the interleaving depth (CCSDS 131.0-B, Reed-Solomon
/// Coding, Symbol Interleaving). `i` is below `depth`, and the block is `depth` times as long as `word`.
pub fn put_word(block: &mut [u8], depth: usize, i: usize, word: &[u8])
    requires column { i < depth }
    requires size { length block.old ≡ depth * length word.now }
    ensures put { column depth i block.new ≡ word.now }
    ensures others { (j : ℕ) → j < depth → j ≢ i → column depth j block.new ≡ column depth j block.old }
    ensures length { length block.new ≡ length block.old }
{
    for k in 0..word.len() {
        block[k * depth + i] = word[k];
    }
}
