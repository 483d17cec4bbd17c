// Bits of the soft decoder, in a buffer.
ghost use Rattle.std.specs.Prelude.{◌≡◌, ◌+◌, ◌++◌, ◌≤◌, length, take};

use tm_inner::{InnerDecoder, WindowWatch};

/// Writes the bits that windows keep to a buffer, as far as there is room, and tells a watch of the windows.
#[derive(Drop)]
pub struct BufferBits<'a, W> {
    pub bits: &'a mut [u8],
    /// How many were written.
    pub count: usize,
    pub watch: &'a mut W,
    ghost within: { count ≤ length bits.now },
}

impl<'a, W: WindowWatch> WindowWatch for BufferBits<'a, W> {
    ghost use Rattle.tm_buffers.specs.Decoding.{watches, writes};

    ghost took = { λ a window b. watches W.took a window b };

    ghost told = { λ a item b. writes a item b };

    fn phase(&mut self, _skip: u8, _cost: u64) {}

    fn window(&mut self, inner: &InnerDecoder, index: usize) {
        self.count = put_bits(inner.kept_bits(index), self.bits, self.count);
        self.watch.window(inner, index);
    }
}

// Writes bits after the first `count` ones of a buffer, where there is room for all. Returns how many stand there
// then.
fn put_bits(kept: &[u8], bits: &mut [u8], count: usize) -> usize
    requires { count ≤ length bits.old }
    ensures within { (result ≤ length bits.old) × (length bits.new ≡ length bits.old) }
    ensures put { count + length kept.now ≤ length bits.old → take result bits.new ≡ take count bits.old ++ kept.now }
{
    if kept.len() > bits.len() - count {
        return count;
    }
    let end = count + kept.len();
    bits[count..end].copy_from_slice(kept);
    end
}
