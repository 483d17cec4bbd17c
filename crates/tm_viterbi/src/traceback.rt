// The path that the survivors keep, from its last register back.
ghost use Rattle.std.specs.Prelude.{◌≡◌, ℕ, ◌+◌, ◌*◌, ◌/◌, ◌%◌, ◌^◌, ◌<◌, reverse, length, slice_index};
ghost use Rattle.tm_conv.specs.Path.{register_after, registers};
ghost use Rattle.tm_viterbi.specs.Walk.{CanTrace, IsTraced, past_of, start_of, history};

mod eight_bits;

use eight_bits::EIGHT_BITS;

// One step back. The low six bits of `history` are a register, those above them belong to later steps. The register's
// survivor bit is put after them, and so the low six bits are the register before.
fn step_back(history: u64, survivor: u64) -> u64
    requires { history < 2 ^ 32 }
    ensures { result ≡ 2 * history + survivor / 2 ^ (history % registers) % 2 }
{
    2 * history + (survivor >> (history % 64)) % 2
}

// Eight steps back: in the low six bits the register before them, and above it their bits, that of the last step on
// top.
fn eight_steps_back(survivors: &[u64], register: usize) -> u64
    requires size { length survivors.now ≡ 8 }
    requires register { register < registers }
    ensures value { result ≡ history (reverse survivors.now) register }
    ensures small { result < 2 ^ 14 }
{
    let seventh = step_back(register as u64, survivors[7]);
    let sixth = step_back(seventh, survivors[6]);
    let fifth = step_back(sixth, survivors[5]);
    let fourth = step_back(fifth, survivors[4]);
    let third = step_back(fourth, survivors[3]);
    let second = step_back(third, survivors[2]);
    let first = step_back(second, survivors[1]);
    step_back(first, survivors[0])
}

// The traceback through eight steps.
fn trace_eight(survivors: &[u64], register: usize, bits: &mut [u8]) -> usize
    requires size { length survivors.now ≡ 8 }
    requires room { length bits.old ≡ 8 }
    requires register { register < registers }
    ensures bits { bits.new ≡ reverse (past_of (reverse survivors.now) register) }
    ensures start { result ≡ start_of (reverse survivors.now) register }
    ensures small { result < registers }
{
    let walked = eight_steps_back(survivors, register);
    let row = EIGHT_BITS[(walked / 64 % 256) as usize];
    bits.copy_from_slice(&row);
    (walked % 64) as usize
}

// The traceback step by step.
fn trace_each(survivors: &[u64], register: usize, bits: &mut [u8]) -> usize
    requires { CanTrace survivors.now bits.old register }
    ensures { IsTraced survivors.now register bits.new result }
{
    let mut s = register;
    let mut i = survivors.len();
    while i > 0 {
        i -= 1;
        bits[i] = (s / 32) as u8;
        s = 2 * (s % 32) + ((survivors[i] >> s) % 2) as usize;
    }
    s
}

// The traceback: writes the bits of the path that survivors keep for `register`, at which it ends, and returns the
// register from which it starts.
pub(crate) fn trace_back(survivors: &[u64], register: usize, bits: &mut [u8]) -> usize
    requires { CanTrace survivors.now bits.old register }
    ensures { IsTraced survivors.now register bits.new result }
{
    let mut s = register;
    let mut i = survivors.len();
    while i >= 8 {
        i -= 8;
        s = trace_eight(&survivors[i..i + 8], s, &mut bits[i..i + 8]);
    }
    trace_each(&survivors[..i], s, &mut bits[..i])
}

// The register after these bits. The last six of them determine it.
pub(crate) fn end_register(first: u8, bits: &[u8]) -> u8
    requires register { first < registers }
    requires bits { (k : ℕ) → k < length bits.now → slice_index bits.now k < 2 }
    ensures value { result ≡ register_after first bits.now }
    ensures register { result < registers }
{
    let mut register = first;
    let last_six = &bits[bits.len().saturating_sub(6)..];
    for b in last_six {
        register = register / 2 + 32 * *b;
    }
    register
}
