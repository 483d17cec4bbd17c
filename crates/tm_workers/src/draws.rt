// Calls at numbers that several workers draw.
ghost use Rattle.std.specs.Prelude.{◌≡◌, ◌<◌, ◌≤◌, true};
ghost use Rattle.std.specs.Thread.{IsSync};
ghost use Rattle.tm_workers.specs.Seats.{IsOf, shares_of, is_spent, limit_of};
ghost use Rattle.tm_workers.specs.Working.{IsCallableBelow};

use crate::seats::Seat;
use crate::tickets::Tickets;
use std::thread::{Threads, join_mut};

// What one worker does: it draws a number, calls f at it, and draws again, until none is left.
fn call_drawn<F: Fn(u32)>(f: &F, tickets: &Tickets, seat: &mut Seat)
    requires calls { IsCallableBelow (F.pre f.now) (limit_of tickets.now) }
    requires seat { IsOf tickets.now seat.old }
    ensures { IsOf tickets.now seat.new × (is_spent seat.new ≡ true) × (shares_of seat.new ≡ shares_of seat.old) }
{
    while let Some(number) = tickets.draw(seat) {
        f(number);
    }
}

/// Calls f at each number that is left, once, on `workers` workers. A worker draws a number, calls f at it, and draws
/// again, until no number is left.
#[cycle(workers)]
pub fn call_each<R: Threads + Sync, F: Fn(u32) + Sync>(
    rt: &R,
    f: &F,
    tickets: &Tickets,
    seat: &mut Seat,
    workers: u32,
)
    requires calls { IsCallableBelow (F.pre f.now) (limit_of tickets.now) }
    requires seat { IsOf tickets.now seat.old }
    requires workers { (0 < workers) × (workers ≤ shares_of seat.old) }
    ensures { IsOf tickets.now seat.new × (is_spent seat.new ≡ true) × (shares_of seat.new ≡ shares_of seat.old) }
{
    if workers < 2 {
        call_drawn(f, tickets, seat);
        return;
    }
    // A new thread is one worker, as it has one part in `split_evenly`.
    let others = workers - 1;
    let mut other = tickets.split(seat, others);
    call_both(rt, f, tickets, seat, &mut other, others);
    tickets.join(seat, other);
}

// One worker, and the others beside it. It is a function of its own, so that what the closures require is what it is
// given.
#[cycle(workers)]
fn call_both<R: Threads + Sync, F: Fn(u32) + Sync>(
    rt: &R,
    f: &F,
    tickets: &Tickets,
    seat: &mut Seat,
    other: &mut Seat,
    others: u32,
)
    requires calls { IsCallableBelow (F.pre f.now) (limit_of tickets.now) }
    requires seat { IsOf tickets.now seat.old }
    requires other { IsOf tickets.now other.old × (0 < others) × (others ≤ shares_of other.old) }
    ensures seat { IsOf tickets.now seat.new × (is_spent seat.new ≡ true) × (shares_of seat.new ≡ shares_of seat.old) }
    ensures other { IsOf tickets.now other.new × (is_spent other.new ≡ true)
        × (shares_of other.new ≡ shares_of other.old) }
{
    let mut call_one = ||
        requires { IsSync F.row × IsCallableBelow (F.pre f.now) (limit_of tickets.now) × IsOf tickets.now seat.now }
        ensures { IsOf tickets.entry.now seat.exit.now × (is_spent seat.exit.now ≡ true)
            × (shares_of seat.exit.now ≡ shares_of seat.entry.now) }
    { call_drawn(f, tickets, seat) };
    let mut call_others = ||
        requires { IsSync R.row × IsSync F.row × IsCallableBelow (F.pre f.now) (limit_of tickets.now)
            × IsOf tickets.now other.now × (0 < others) × (others ≤ shares_of other.now) }
        ensures { IsOf tickets.entry.now other.exit.now × (is_spent other.exit.now ≡ true)
            × (shares_of other.exit.now ≡ shares_of other.entry.now) }
    { call_each(rt, f, tickets, other, others) };
    join_mut(rt, &mut call_one, &mut call_others);
}
