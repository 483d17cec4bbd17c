// A taker of blocks that may fail behind what never does.
use crate::decoder::InnerDecoder;
use crate::watch::WindowWatch;
use tm_base::Failed;
use tm_viterbi::BlockTaker;

/// Hands the symbol phase and blocks on to a taker, and nothing more once that failed.
#[derive(Drop)]
pub struct UntilFault<'a, B> {
    pub taker: &'a mut B,
    pub has_failed: bool,
}

impl<'a, B: BlockTaker> WindowWatch for UntilFault<'a, B> {
    ghost use Rattle.std.specs.Prelude.{◌≡◌};
    ghost use Rattle.tm_base.specs.Handed.{on_handed};
    ghost use Rattle.tm_inner.specs.UntilFault.{Passes};

    ghost took = { λ a window b. Unit {0} };

    ghost told = { λ a item b. (b.taker.ghost_name ≡ a.taker.ghost_name)
        × Passes (λ before now. on_handed B.took_phase B.took before item now)
        (λ before now. on_handed B.broke_phase B.broke before item now) B.faults B.is_last
        a.has_failed a.taker.now b.has_failed b.taker.now };

    fn phase(&mut self, skip: u8, cost: u64) {
        if self.has_failed {
            return;
        }
        if let Err(Failed) = self.taker.phase(skip, cost) {
            self.has_failed = true;
        }
    }

    fn window(&mut self, inner: &InnerDecoder, index: usize) {
        if self.has_failed {
            return;
        }
        if let Err(Failed) = self.taker.block(&inner.block(index)) {
            self.has_failed = true;
        }
    }
}
