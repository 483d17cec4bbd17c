// How far windows are reported.

/// The windows that were reported, and the bits that they keep, each up to 2^64-1.
#[derive(Clone, Copy, Debug, PartialEq, Eq)]
pub struct Tally {
    pub blocks: u64,
    pub bits: u64,
}
