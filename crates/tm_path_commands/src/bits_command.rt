// The command `bits`: the bits that are received, eight an octet, and what is said of them.
ghost use Rattle.std.specs.Prelude.{◌≡◌, ◌<◌, ◌≤◌, ◌==◌, true, [], length, map, drop, OnErr, IfOk};
ghost use Rattle.tm_base.specs.Bits.{AreOctets, bits_of, low_bits};
ghost use Rattle.tm_driver.specs.Answered.{Answered};
ghost use Rattle.tm_driver.specs.Courses.{sink_call, source_call};
ghost use Rattle.tm_driver.specs.Turns.{turn_size};
ghost use Rattle.tm_driver.specs.Writing.{Out};
ghost use Rattle.tm_inner.specs.Inner.{nearest_bit};
ghost use Rattle.tm_path_commands.specs.Bits.{bits_meaning};
ghost use Rattle.tm_path_commands.specs.Packing.{Packs, plain_more};

use crate::window_lines::bits_end_text;
use std::alloc::Global;
use std::marker::Model;
use tm_base::{NoMemory, Sink, Source};
use tm_config::Config;
use tm_driver::{Ending, Outcome, Stage, TURN, TextTaker, drive_stage, phase_text};
use tm_inner::{InnerDecoder, WindowWatch, handed_law, watch_due, watch_last};

// Bits that are packed to octets, the first one most significant, until they are given: those of a turn at once, where
// they are no more than its octets.
#[derive(Drop)]
struct Packer {
    room: [u8; TURN],
    // The whole octets.
    count: usize,
    // The bits after them are the lowest `pending` ones of this octet.
    last: u8,
    pending: u32,
}

impl Model for Packer {
    ghost use Rattle.std.specs.Prelude.{Bool, List, ◌++◌, ◌<◌, take};
    ghost use Rattle.tm_base.specs.Bits.{bits_of, low_bits};

    ghost Value = { List Bool };

    ghost view = { λ p. bits_of (take p.count p.room) ++ low_bits p.pending p.last };

    ghost invariant = { λ p. (p.count < 4096) × (p.pending < 8) };
}

impl Packer {
    // With no bit.
    fn new() -> Packer
        ensures { result ≡ [] }
    {
        Packer {
            room: [0; TURN],
            count: 0,
            last: 0,
            pending: 0,
        }
    }

    // Adds the lowest `bits` bits of an octet.
    fn add<W: TextTaker>(&mut self, octet: u8, bits: u32, texts: &mut W)
        requires { bits ≤ 8 }
        ensures { Packs W.took self.old texts.old (low_bits bits octet) self.new texts.new }
    {
        let low = u32::from(octet) % (1 << bits);
        let joined = u32::from(self.last) << bits | low;
        let pending = self.pending + bits;
        self.last = (joined & 0xFF) as u8;
        if pending < 8 {
            self.pending = pending;
            return;
        }
        self.pending = pending - 8;
        self.room[self.count] = (joined >> self.pending & 0xFF) as u8;
        self.count += 1;
        if self.count == TURN {
            give_octets(&self.room, texts);
            self.count = 0;
        }
    }

    // Adds bits, each 0 or 1.
    fn add_bits<W: TextTaker>(&mut self, bits: &[u8], texts: &mut W)
        ensures { Packs W.took self.old texts.old (map (λ bit. bit == 1) bits.now) self.new texts.new }
    {
        for k in 0..bits.len() {
            self.add(u8::from(bits[k] == 1), 1, texts);
        }
    }

    // Adds the bits of octets after the first `skip` ones.
    fn add_octets<W: TextTaker>(&mut self, skip: u64, octets: &[u8], texts: &mut W)
        ensures { Packs W.took self.old texts.old (drop skip (bits_of octets.now)) self.new texts.new }
    {
        let mut left = skip;
        for k in 0..octets.len() {
            let skipped = left.min(8);
            self.add(octets[k], 8 - skipped as u32, texts);
            left -= skipped;
        }
    }

    // Gives the whole octets.
    fn give<W: TextTaker>(&mut self, texts: &mut W)
        ensures given { Packs W.took self.old texts.old [] self.new texts.new }
        ensures few { length self.new < 8 }
    {
        give_octets(&self.room[..self.count], texts);
        self.count = 0;
    }
}

// Gives octets, each below 256.
fn give_octets<W: TextTaker>(octets: &[u8], texts: &mut W)
    ensures given { W.took texts.old (Out octets.now) texts.new }
    ensures octets { AreOctets octets.now }
{
    texts.out(octets);
}

// Packs the bits of windows, and counts these, up to 2^64-1.
#[derive(Drop)]
struct PackedWindows<'a, W> {
    packer: &'a mut Packer,
    windows: u64,
    texts: &'a mut W,
}

impl<'a, W: TextTaker> WindowWatch for PackedWindows<'a, W> {
    ghost use Rattle.tm_path_commands.specs.Packing.{packed};

    ghost took = { λ a window b. Unit {0} };

    ghost told = { λ a item b. packed W.took a item b };

    fn phase(&mut self, skip: u8, cost: u64) {
        self.texts.note(phase_text(skip, cost).octets());
    }

    fn window(&mut self, inner: &InnerDecoder, index: usize) {
        self.packer.add_bits(inner.kept_bits(index), self.texts);
        self.windows = self.windows.saturating_add(1);
    }
}

// A decoder whose bits are packed, and its windows so far, up to 2^64-1.
#[derive(Drop)]
struct BitsOf {
    inner: InnerDecoder,
    packer: Packer,
    windows: u64,
}

impl Stage for BitsOf {
    ghost use Rattle.std.specs.Prelude.{◌≡◌, false};
    ghost use Rattle.tm_driver.specs.declared.ending.Outcome.TheVariants.{Done};
    ghost use Rattle.tm_path_commands.specs.Packing.{GivesBits, GivesAllBits};

    ghost stands = { λ s t octets texts. GivesBits s.inner.config t.inner t.packer t.windows octets texts };

    ghost finished = { λ s t octets texts outcome. (outcome ≡ Done) × GivesAllBits s.inner.config octets texts };

    ghost is_ready = { λ t. t.inner.has_ended ≡ false };

    fn feed<W: TextTaker>(&mut self, piece: &[u8], texts: &mut W) -> bool {
        let skip = self.inner.bits_to_skip();
        let mut packed = PackedWindows {
            packer: &mut self.packer,
            windows: self.windows,
            texts,
        };
        watch_due(&mut self.inner, piece, &mut packed);
        let PackedWindows { windows, .. } = packed;
        self.windows = windows;
        pack_plain(&self.inner, &mut self.packer, skip, piece, texts);
        self.packer.give(texts);
        true
    }

    fn finish<W: TextTaker>(&mut self, texts: &mut W) -> Outcome {
        let mut packed = PackedWindows {
            packer: &mut self.packer,
            windows: self.windows,
            texts,
        };
        let end = watch_last(&mut self.inner, &mut packed);
        let PackedWindows { windows, .. } = packed;
        // Zeros fill the last octet.
        self.packer.add(0, 7, texts);
        self.packer.give(texts);
        let line = bits_end_text(end.slips, windows, end.bits, end.leftover);
        texts.note(line.octets());
        Outcome::Done
    }
}

// Packs the bits of octets after the first `skip` ones, where there is no inner code.
fn pack_plain<W: TextTaker>(
    inner: &InnerDecoder,
    packer: &mut Packer,
    skip: u64,
    octets: &[u8],
    texts: &mut W,
)
    requires { length octets.now ≤ turn_size }
    ensures { Packs W.took packer.old texts.old (plain_more inner.now.config.inner inner.now.config skip octets.now)
        packer.new texts.new }
{
    if inner.has_inner_code() {
        return;
    }
    if inner.is_packed() {
        packer.add_octets(skip, octets, texts);
    } else {
        pack_nearest(inner, packer, skip, octets, texts);
    }
}

// Packs a bit for each octet after the first `skip` ones: the bit that it is nearest to.
fn pack_nearest<W: TextTaker>(
    inner: &InnerDecoder,
    packer: &mut Packer,
    skip: u64,
    octets: &[u8],
    texts: &mut W,
)
    requires { length octets.now ≤ turn_size }
    ensures { Packs W.took packer.old texts.old (drop skip (map (nearest_bit inner.now.config) octets.now)) packer.new
        texts.new }
{
    let from = skip.min(octets.len() as u64) as usize;
    let mut room = [0; TURN];
    let bits = &mut room[..octets.len() - from];
    inner.nearest_bits(&octets[from..], bits);
    packer.add_bits(bits, texts);
}

/// Writes the received bits of the soft octets of the source, up to the limit in octets, eight an octet, the first one
/// most significant, to `out`, with zeros after them to a whole octet at the end of the input. The notes get a line for
/// the symbol phase before them, where it is to be found, and the end of the trace after them. With no inner code the
/// octets hold the bits, packed or one each. After a fault nothing more is read or written. It takes all its memory
/// before it reads.
pub fn bits<S: Source, O: Sink, N: Sink>(
    alloc: Global,
    config: &Config,
    source: &mut S,
    out: &mut O,
    notes: &mut N,
) -> Result<Ending, NoMemory>
    ensures answered { IfOk result (λ ending. Answered true ending (bits_meaning config.now) config.now.limit
        (source_call S.Source source.old source.new) (sink_call O.Sink out.old out.new)
        (sink_call N.Sink notes.old notes.new)) }
    ensures memory { OnErr result ((source.new ≡ source.old) × (out.new ≡ out.old) × (notes.new ≡ notes.old)) }
{
    handed_law();
    let Ok(inner) = InnerDecoder::open(alloc, config, 1, 0) else {
        return Err(NoMemory);
    };
    let mut stage = BitsOf {
        inner,
        packer: Packer::new(),
        windows: 0,
    };
    Ok(drive_stage(config.limit(), source, &mut stage, out, notes))
}
