// What received octets come to, as a program in C has it.
ghost use Rattle.std.specs.Prelude.{◌≡◌};
ghost use Rattle.tmchan_c.specs.Streams.{totals_state};

use tm_channel::Totals;

/// How many bits were received, and before how many windows octets were dropped: none where the phase is not followed.
#[repr(C)]
#[derive(Clone, Copy)]
pub struct TotalsState {
    pub bits: u64,
    pub slips: u64,
}

/// The totals for C.
pub fn totals_state(totals: &Totals) -> TotalsState
    ensures { result ≡ totals_state totals.now }
{
    TotalsState {
        bits: totals.bits,
        slips: totals.slips.unwrap_or(0),
    }
}
