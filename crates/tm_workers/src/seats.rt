// The right to draw.
ghost use Rattle.std.specs.Prelude.{◌≡◌, ◌<◌};

use atomic_table::Seat as Place;
use std::collections::LinkedList;

// What a seat knows. No value of it is made.
pub struct View {
    // How many numbers there are.
    pub limit: u32,
    // The numbers that were drawn, in order.
    pub drawn: LinkedList<u32>,
    pub shares: u32,
    // Whether it has seen that no number is left.
    pub spent: bool,
}

/// The right to draw, and to know what was drawn with it. The seats of the same tickets have 64 shares together, and
/// each has one at least.
#[derive(Drop)]
pub struct Seat {
    pub(crate) place: Place<(), View>,
    pub(crate) shares: u32,
    pub(crate) spent: bool,
    pub ghost shares_are: { shares ≡ place.me.0.shares },
    pub ghost spent_is: { spent ≡ place.me.0.spent },
    pub ghost has_some: { 0 < shares },
}

impl Seat {
    ghost use Rattle.tm_workers.specs.Seats.{shares_of};

    /// How many of the 64 shares the seat has.
    pub fn shares(&self) -> u32
        ensures { result ≡ shares_of self.now }
    {
        self.shares
    }
}
