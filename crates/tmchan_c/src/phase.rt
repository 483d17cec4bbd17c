// The symbol phase as a program in C has it.
ghost use Rattle.std.specs.Prelude.{◌≡◌};
ghost use Rattle.tmchan_c.specs.Streams.{chosen_of};

use tm_windows::Chosen;

/// How many octets are skipped, and what the best path after them costs, where a phase was chosen.
#[repr(C)]
#[derive(Clone, Copy)]
pub struct PhaseState {
    pub is_chosen: u32,
    pub skip: u32,
    pub cost: u64,
}

/// The phase for C.
pub fn phase_state(chosen: Option<Chosen>) -> PhaseState
    ensures { chosen_of result ≡ chosen }
{
    match chosen {
        Some(chosen) => PhaseState {
            is_chosen: 1,
            skip: u32::from(chosen.skip),
            cost: chosen.cost,
        },
        None => PhaseState {
            is_chosen: 0,
            skip: 0,
            cost: 0,
        },
    }
}
