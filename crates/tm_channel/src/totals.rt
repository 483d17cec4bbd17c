// What received octets come to.

/// What all octets came to.
#[derive(Clone, Copy, Debug, PartialEq, Eq)]
pub struct Totals {
    /// How many bits were received.
    pub bits: u64,
    /// Before how many windows of the inner code octets were dropped; None where the symbol phase is not followed.
    pub slips: Option<u64>,
}
