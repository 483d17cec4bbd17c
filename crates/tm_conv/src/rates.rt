// The rates, and which symbols their steps keep.
ghost use Rattle.std.specs.Prelude.{◌≡◌, ◌+◌, ◌/◌, ◌<◌, ◌≤◌};
ghost use Rattle.tm_conv.specs.Path.{c1_pattern, c2_pattern, keeps_c1, keeps_c2, most_period, period, step_size, steps_size, farthest_step};

/// The rate of the code: that of the code itself, or of one of its puncture patterns (CCSDS 131.0-B, Convolutional
/// Coding).
#[derive(Clone, Copy, Debug, PartialEq, Eq)]
pub enum Rate {
    /// 1/2
    R12,
    /// 2/3
    R23,
    /// 3/4
    R34,
    /// 5/6
    R56,
    /// 7/8
    R78,
}

// Which steps of a period send the first sum: 1 where it is sent.
fn c1_pattern(rate: Rate) -> &'static [u8]
    ensures { result.now ≡ c1_pattern rate }
{
    match rate {
        Rate::R12 => &[1],
        Rate::R23 => &[1, 0],
        Rate::R34 => &[1, 0, 1],
        Rate::R56 => &[1, 0, 1, 0, 1],
        Rate::R78 => &[1, 0, 0, 0, 1, 0, 1],
    }
}

// Which steps of a period send the second sum: 1 where it is sent.
fn c2_pattern(rate: Rate) -> &'static [u8]
    ensures { result.now ≡ c2_pattern rate }
{
    match rate {
        Rate::R12 => &[1],
        Rate::R23 => &[1, 1],
        Rate::R34 => &[1, 1, 0],
        Rate::R56 => &[1, 1, 0, 1, 0],
        Rate::R78 => &[1, 1, 1, 1, 0, 1, 0],
    }
}

/// Whether step `t`, counted from the stream's first bit, keeps the first and the second sum (CCSDS 131.0-B,
/// Convolutional Coding). Each step keeps at least one.
pub fn kept(rate: Rate, t: u64) -> (bool, bool)
    ensures c1 { result.0 ≡ keeps_c1 rate t }
    ensures c2 { result.1 ≡ keeps_c2 rate t }
{
    let first = c1_pattern(rate);
    let second = c2_pattern(rate);
    let keeps_first = first[(t % first.len() as u64) as usize] == 1;
    let keeps_second = second[(t % second.len() as u64) as usize] == 1;
    (keeps_first, keeps_second)
}

/// How many symbols step `t`, counted from the stream's first bit, sends: one or two.
pub fn step_len(rate: Rate, t: u64) -> usize
    ensures { result ≡ step_size rate t }
{
    let (first, second) = kept(rate, t);
    usize::from(first) + usize::from(second)
}

/// How many steps the puncture pattern of a rate has.
#[inline(always)]
pub fn period(rate: Rate) -> u8
    ensures period { result ≡ period rate }
    ensures some { 0 < result }
    ensures small { result ≤ most_period }
{
    match rate {
        Rate::R12 => 1,
        Rate::R23 => 2,
        Rate::R34 => 3,
        Rate::R56 => 5,
        Rate::R78 => 7,
    }
}

/// How many symbols the first `bits` steps of the stream send; at most 2^62 bits.
pub fn symbols_of(rate: Rate, bits: u64) -> u64
    requires { bits ≤ farthest_step }
    ensures { result ≡ steps_size rate 0 bits }
{
    // A step sends one symbol, and the first of each period one more.
    bits + bits.div_ceil(u64::from(period(rate)))
}

/// How many symbols `count` steps send from step `t` on, counted from the stream's first bit; `t + count` is at most
/// 2^62.
pub fn steps_len(rate: Rate, t: u64, count: usize) -> usize
    requires { t + count ≤ farthest_step }
    ensures { result ≡ steps_size rate t count }
{
    let after = symbols_of(rate, t + count as u64);
    (after - symbols_of(rate, t)) as usize
}
