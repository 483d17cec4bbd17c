// The numbers below a limit, drawn from a counter.
ghost use Rattle.std.specs.Prelude.{◌≡◌, ◌<◌};
ghost use Rattle.tm_workers.specs.Batch.{words_bound};
ghost use Rattle.tm_workers.specs.Drawing.{all_shares};

use crate::rule::{Both, Counts, Draws, EachOnce, cut_shares};
use crate::seats::{Seat, View};
use atomic_table::Table;
use std::alloc::{AllocError, Global};
use std::marker::Brand;
use tm_base::NoMemory;

/// The numbers below a limit. Seats draw them, in whatever order and from whatever threads, and each is drawn once.
/// Only `new` takes memory.
#[derive(Drop)]
pub struct Tickets {
    pub(crate) table: Table<(), View, u32, EachOnce, Global>,
    pub(crate) limit: u32,
    ghost limit_is: { limit ≡ table.shared.key },
    ghost one_word: { table.shared.table_id.words ≡ 1 },
    ghost small: { limit < words_bound },
    ghost no_slots: { table.shared.table_id.slots ≡ 0 },
}

impl Tickets {
    ghost use Rattle.std.specs.Prelude.{ℕ, ◌+◌, ◌≤◌, ◌||◌, [], ◌∷◌, ◌++◌, true, false, IfOk, IfSome, IfNone, IsSome, length};
    ghost use Rattle.tm_workers.specs.Numbers.{times, once_below};
    ghost use Rattle.tm_workers.specs.Seats.{IsOf, numbers, shares_of, is_spent, limit_of};

    /// The numbers below n, and a first seat with all 64 shares.
    pub fn new(alloc: Global, n: u32) -> Result<(Tickets, Seat), NoMemory>
        ensures limit { IfOk result (λ r. limit_of r.0 ≡ n) }
        ensures of { IfOk result (λ r. IsOf r.0 r.1) }
        ensures first { IfOk result (λ r. (numbers r.1 ≡ []) × (shares_of r.1 ≡ all_shares) × (is_spent r.1 ≡ false)) }
    {
        match Table::of_words(alloc, &[0], &n) {
            Ok((table, place)) => Ok((
                Tickets { table, limit: n },
                Seat {
                    place,
                    shares: 64,
                    spent: false,
                },
            )),
            Err(AllocError) => Err(NoMemory),
        }
    }

    /// The next number, or None where none is left. A seat that was answered None, or was split from or joined with
    /// one that was, is answered None again.
    pub fn draw(&self, seat: &mut Seat) -> Option<u32>
        requires of { IsOf self.now seat.old }
        ensures of { IsOf self.now seat.new }
        ensures shares { shares_of seat.new ≡ shares_of seat.old }
        ensures few { IsSome result → length (numbers seat.new) ≤ limit_of self.now }
        ensures some { IfSome result (λ k. (k < limit_of self.now) × (numbers seat.new ≡ numbers seat.old ++ k ∷ [])
            × (is_spent seat.old ≡ false) × (is_spent seat.new ≡ false)) }
        ensures none { IfNone result ((numbers seat.new ≡ numbers seat.old) × (is_spent seat.new ≡ true)) }
    {
        if seat.spent {
            return None;
        }
        let found = self.table.shared.fetch_add::<Draws>(&mut seat.place, 0, 1);
        if found < u64::from(self.limit) {
            Some(found as u32)
        } else {
            seat.spent = true;
            None
        }
    }

    /// Cuts shares off a seat, for a new one: at least one, and fewer than it has. The numbers drawn stay with the
    /// old seat.
    pub fn split(&self, seat: &mut Seat, shares: u32) -> Seat
        requires of { IsOf self.now seat.old }
        requires fewer { (0 < shares) × (shares < shares_of seat.old) }
        ensures of { IsOf self.now seat.new × IsOf self.now result }
        ensures numbers { (numbers seat.new ≡ numbers seat.old) × (numbers result ≡ []) }
        ensures shares { (shares_of seat.new + shares ≡ shares_of seat.old) × (shares_of result ≡ shares) }
        ensures spent { (is_spent seat.new ≡ is_spent seat.old) × (is_spent result ≡ is_spent seat.old) }
    {
        let place = cut_shares::<Brand>(&self.table.shared, &mut seat.place, shares);
        seat.shares -= shares;
        Seat {
            place,
            shares,
            spent: seat.spent,
        }
    }

    /// Joins another seat's numbers and shares to a seat's.
    pub fn join(&self, seat: &mut Seat, other: Seat)
        requires of { IsOf self.now seat.old × IsOf self.now other }
        ensures of { IsOf self.now seat.new }
        ensures numbers { numbers seat.new ≡ numbers seat.old ++ numbers other }
        ensures shares { shares_of seat.new ≡ shares_of seat.old + shares_of other }
        ensures spent { is_spent seat.new ≡ (is_spent seat.old || is_spent other) }
    {
        let Seat {
            place,
            shares,
            spent,
        } = other;
        self.table.shared.join_seat::<Both>(&mut seat.place, place);
        // It says that the sum of the shares is at most 64.
        self.table.shared.load::<Counts>(&mut seat.place, 0);
        seat.shares += shares;
        seat.spent |= spent;
    }

    /// How many numbers were drawn. The seat has all 64 shares, and so all numbers that were drawn.
    pub fn close(self, seat: Seat) -> u32
        requires of { IsOf self seat }
        requires whole { shares_of seat ≡ all_shares }
        ensures each { (x : ℕ) → times x (numbers seat) ≡ once_below x result }
        ensures most { result ≤ limit_of self }
        ensures all { is_spent seat ≡ true → result ≡ limit_of self }
    {
        let Tickets { table, limit } = self;
        let closed = table.close_with(seat.place);
        let count = closed.word(0);
        closed.free();
        count.min(u64::from(limit)) as u32
    }
}
