// The branch metrics of steps, and the path metric that they add up to.
ghost use Rattle.std.specs.Prelude.{◌≡◌, ℕ, ◌+◌, ◌*◌, ◌≤◌, ◌<◌, length, slice_index};
ghost use Rattle.tm_path_cert.specs.Claim.{most_soft};
ghost use Rattle.tm_conv.specs.Path.{c1, c2, keeps_c1, keeps_c2, sent, step_size, step_symbols, steps_size, AreBits, path, registers};
ghost use Rattle.tm_conv.specs.Cost as metric;
ghost use Rattle.tm_conv.specs.Columns.{last_certified};
ghost use Rattle.tm_conv.specs.Cost.{most_branch_metric};

use tm_conv::{Rate, kept, step_len};

// How far a soft octet is from a symbol.
fn distance(symbol: u8, octet: u8) -> u32
    ensures { result ≡ metric.distance symbol octet }
{
    u32::from(if symbol == 0 { octet } else { 255 - octet })
}

// The first sum of a step.
fn first_sum(register: u8, bit: u8) -> u8
    requires register { register < registers }
    requires bit { bit < 2 }
    ensures { result ≡ c1 register bit }
{
    (bit + register / 32 + register / 16 + register / 8 + register) % 2
}

// The second sum of a step.
fn second_sum(register: u8, bit: u8) -> u8
    requires register { register < registers }
    requires bit { bit < 2 }
    ensures { result ≡ c2 register bit }
{
    (bit + register / 16 + register / 8 + register / 2 + register) % 2
}

// A step and its soft octets.
#[derive(Clone, Copy)]
pub(crate) struct Step<'a> {
    pub(crate) rate: Rate,
    pub(crate) invert: bool,
    pub(crate) t: u64,
    pub(crate) octets: &'a [u8],
    ghost size: { length octets.now ≡ step_size rate t },
}

impl<'a> Step<'a> {
    // The branch metric of these two sums, where `kept` says which of them are sent.
    fn cost_of(&self, kept: (bool, bool), first: u8, second: u8) -> u32
        requires c1 { kept.0 ≡ keeps_c1 self.now.rate self.now.t }
        requires c2 { kept.1 ≡ keeps_c2 self.now.rate self.now.t }
        requires first { first < 2 }
        requires second { second < 2 }
        ensures cost { result ≡ metric.cost (sent self.now.rate self.now.invert self.now.t first second)
            self.now.octets.now }
        ensures small { result ≤ most_branch_metric }
    {
        let second = if self.invert { 1 - second } else { second };
        match kept {
            (true, true) => distance(first, self.octets[0]) + distance(second, self.octets[1]),
            (true, false) => distance(first, self.octets[0]),
            (false, true) => distance(second, self.octets[0]),
            (false, false) => 0,
        }
    }

    // The branch metric from a register by a bit.
    pub(crate) fn cost(&self, register: u8, bit: u8) -> u32
        requires register { register < registers }
        requires bit { bit < 2 }
        ensures cost { result ≡ metric.cost (step_symbols self.now.rate self.now.invert self.now.t register bit)
            self.now.octets.now }
        ensures small { result ≤ most_branch_metric }
    {
        let kept = kept(self.rate, self.t);
        self.cost_of(kept, first_sum(register, bit), second_sum(register, bit))
    }

    // The four branch metrics, each at 2 * first + second.
    pub(crate) fn costs(&self) -> [u32; 4]
        ensures { (register bit : ℕ) → register < registers → bit < 2
            → slice_index result (2 * c1 register bit + c2 register bit)
            ≡ metric.cost (step_symbols self.now.rate self.now.invert self.now.t register bit) self.now.octets.now }
    {
        let kept = kept(self.rate, self.t);
        [
            self.cost_of(kept, 0, 0),
            self.cost_of(kept, 0, 1),
            self.cost_of(kept, 1, 0),
            self.cost_of(kept, 1, 1),
        ]
    }
}

// The path metric for soft octets that are the symbols of the path's steps, from step `first` on.
pub(crate) fn path_sum(
    rate: Rate,
    invert: bool,
    first: u64,
    soft: &[u8],
    register: u8,
    bits: &[u8],
) -> u64
    requires register { register < registers }
    requires bits { AreBits bits.now }
    requires first { first ≤ last_certified }
    requires few { length soft.now ≤ most_soft }
    requires steps { length soft.now ≡ steps_size rate first (length bits.now) }
    ensures { result ≡ metric.cost (path rate invert first register bits.now) soft.now }
{
    let mut sum = 0;
    let mut place = 0;
    let mut now = register;
    for i in 0..bits.len() {
        let t = first + i as u64;
        let end = place + step_len(rate, t);
        let step = Step {
            rate,
            invert,
            t,
            octets: &soft[place..end],
        };
        sum += u64::from(step.cost(now, bits[i]));
        now = now / 2 + 32 * bits[i];
        place = end;
    }
    sum
}
