// The shortest recurrence that holds for a sequence of elements, one term after another.
ghost use Rattle.std.specs.Prelude.{◌≡◌, ◌<◌, ◌≤◌, ◌+◌, ◌-◌, ◌*◌, ℕ, suc, length, IfNone, IfSome};
ghost use Rattle.std.specs.Bool.{OnTrue, OnFalse};
ghost use Rattle.tm_gf256.specs.Poly.{entry};
ghost use Rattle.tm_rs_code.specs.Recurrence.{discrepancy, patched};
ghost use Rattle.tm_rs_code.specs.Code.{most_checks};
ghost use Rattle.tm_rs.specs.State.{IsShortest, IsState, Unexplained};
ghost use Rattle.tm_rs.specs.Locator.{locator_room};

use crate::counter::Steps;
use std::sync::ledger::Ledger;
use tm_gf256::Gf;

// What the recurrence of the given length gives at term k, beside that term.
pub fn mismatch<L: Ledger>(
    coefs: &[Gf],
    terms: &[Gf; 32],
    k: usize,
    len: usize,
    steps: &mut Steps<L>,
) -> Gf
    requires inside { len < length coefs.now }
    requires before { len ≤ k }
    requires given { k < most_checks }
    ensures value { result.0 ≡ discrepancy (entry coefs.now) (entry terms.now) k (suc len) }
    ensures cost { steps.new ≡ steps.old + len + 1 }
{
    let mut sum = Gf(0);
    for i in 0..len + 1 {
        sum = sum.add(steps.product(coefs[i], terms[k - i]));
    }
    sum
}

// Adds q times the other recurrence, m places on, to the coefficients below `end`.
pub fn patch<L: Ledger>(
    coefs: &mut [Gf],
    other: &[Gf],
    q: Gf,
    m: usize,
    end: usize,
    steps: &mut Steps<L>,
)
    requires inside { end ≤ length coefs.old }
    requires other_inside { end ≤ length other.now }
    ensures room { length coefs.new ≡ length coefs.old }
    ensures patched { (i : ℕ) → i < end
        → entry coefs.new i ≡ patched (entry coefs.old) q.0 m (entry other.now) i }
    ensures rest { (i : ℕ) → end ≤ i → entry coefs.new i ≡ entry coefs.old i }
    ensures cost { steps.new ≤ steps.old + end }
    ensures least { steps.old + (end - m) ≤ steps.new }
{
    for i in m..end {
        coefs[i] = coefs[i].add(steps.product(q, other[i - m]));
    }
}

// The recurrence so far, and the one before its length last grew.
#[derive(Drop)]
pub struct Recurrence {
    pub current: [Gf; 17],
    pub previous: [Gf; 17],
    pub len: usize,
    pub gap: usize,
    pub scale: Gf,
}

// Takes in term k; false where no pattern is left.
fn advance<L: Ledger>(
    state: &mut Recurrence,
    terms: &[Gf; 32],
    count: usize,
    k: usize,
    steps: &mut Steps<L>,
) -> bool
    requires held { IsState count (entry terms.now) (entry state.old.current) (entry state.old.previous)
        state.old.len state.old.gap state.old.scale.0 k }
    requires room { length state.old.current ≡ locator_room }
    requires before { length state.old.previous ≡ locator_room }
    requires most { count ≤ most_checks }
    requires given { k < count }
    ensures room { length state.new.current ≡ locator_room }
    ensures before { length state.new.previous ≡ locator_room }
    ensures held { OnTrue result (IsState count (entry terms.now) (entry state.new.current)
        (entry state.new.previous) state.new.len state.new.gap state.new.scale.0 (k + 1)) }
    ensures none { OnFalse result (Unexplained count (entry terms.now)) }
    ensures cost { steps.new ≤ steps.old + (count + 3) }
    ensures later { steps.old ≤ steps.new }
{
    let failure = mismatch(&state.current, terms, k, state.len, steps);
    if failure.0 == 0 {
        state.gap += 1;
        return true;
    }
    let q = steps.product(failure, state.scale.inv());
    let end = count / 2 + 1;
    if k < 2 * state.len {
        patch(
            &mut state.current,
            &state.previous,
            q,
            state.gap,
            end,
            steps,
        );
        state.gap += 1;
        return true;
    }
    let len = k + 1 - state.len;
    if len > count / 2 {
        return false;
    }
    let before = state.current;
    patch(
        &mut state.current,
        &state.previous,
        q,
        state.gap,
        end,
        steps,
    );
    state.previous = before;
    state.len = len;
    state.scale = failure;
    state.gap = 1;
    true
}

// The shortest recurrence for the first `count` terms; none where no word explains them.
pub fn shortest<L: Ledger>(
    terms: &[Gf; 32],
    count: usize,
    steps: &mut Steps<L>,
) -> Option<Recurrence>
    requires { count ≤ most_checks }
    ensures none { IfNone result (Unexplained count (entry terms.now)) }
    ensures room { IfSome result (λ r. length r.current ≡ locator_room) }
    ensures some { IfSome result (λ r. IsShortest count (entry terms.now) (entry r.current) r.len) }
    ensures cost { steps.new ≤ steps.old + count * (count + 3) }
    ensures later { steps.old ≤ steps.new }
{
    let mut start = [Gf(0); 17];
    start[0] = Gf(1);
    let mut state = Recurrence {
        current: start,
        previous: start,
        len: 0,
        gap: 1,
        scale: Gf(1),
    };
    for k in 0..count {
        if !advance(&mut state, terms, count, k, steps) {
            return None;
        }
    }
    Some(state)
}
