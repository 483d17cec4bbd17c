// A taker that may fail behind what never does.
use crate::item::{Item, ItemTaker, ItemWatch};
use tm_base::Failed;

/// Hands the symbol phase and items on to a taker, and nothing more once that failed.
#[derive(Drop)]
pub struct UntilFault<'a, T> {
    pub taker: &'a mut T,
    pub has_failed: bool,
}

impl<'a, T: ItemTaker> ItemWatch for UntilFault<'a, T> {
    ghost use Rattle.std.specs.Prelude.{◌≡◌};
    ghost use Rattle.tm_inner.specs.UntilFault.{Passes};

    ghost took = { λ a item b. (b.taker.ghost_name ≡ a.taker.ghost_name)
        × Passes (λ before now. T.took before item now) (λ before now. T.broke before item now) T.faults T.is_last
        a.has_failed a.taker.now b.has_failed b.taker.now };

    ghost took_phase = { λ a skip cost b. (b.taker.ghost_name ≡ a.taker.ghost_name)
        × Passes (λ before now. T.took_phase before skip cost now) (λ before now. T.broke_phase before skip cost now)
        T.faults T.is_last a.has_failed a.taker.now b.has_failed b.taker.now };

    fn item(&mut self, item: &Item<'_>) {
        if self.has_failed {
            return;
        }
        if let Err(Failed) = self.taker.item(item) {
            self.has_failed = true;
        }
    }

    fn phase(&mut self, skip: u8, cost: u64) {
        if self.has_failed {
            return;
        }
        if let Err(Failed) = self.taker.phase(skip, cost) {
            self.has_failed = true;
        }
    }
}
