// What is said of a window of the soft decoder.

/// A window of the soft decoder, and what the soft octets of the steps that it keeps say against the symbols of the
/// best path. An octet is never equally near to both symbols.
#[repr(C)]
#[derive(Clone, Copy, Debug, PartialEq, Eq)]
pub struct Window {
    /// The number, from 0, of its first step's first symbol among all octets that were given, those counted that were
    /// skipped or dropped.
    pub symbol: u64,
    /// How many octets were dropped before it.
    pub dropped: u64,
    /// How many steps it has.
    pub steps: u64,
    /// How many of them are kept.
    pub kept: u64,
    /// What its best path costs, over all steps.
    pub metric: u64,
    /// How many octets the kept steps have.
    pub octets: u64,
    /// How many of these are nearer to the other symbol than the path's.
    pub wrong: u64,
    /// The sum of their distances from the path's symbols, 0 to 255 each.
    pub distance: u64,
    /// The sum of the squares of these.
    pub squares: u64,
}

/// No window, where there is none to speak of.
pub const NO_WINDOW: Window = Window {
    symbol: 0,
    dropped: 0,
    steps: 0,
    kept: 0,
    metric: 0,
    octets: 0,
    wrong: 0,
    distance: 0,
    squares: 0,
};
