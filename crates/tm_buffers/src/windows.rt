// Windows of the soft decoder, in an array.
ghost use Rattle.std.specs.Prelude.{◌≤◌, length};

use tm_inner::{InnerDecoder, Window, WindowWatch};

/// Writes windows to an array, from its start on. It never fails: from the first window on for which there is no room,
/// all are dropped.
#[derive(Drop)]
pub struct BufferWindows<'a> {
    pub windows: &'a mut [Window],
    /// How many were written.
    pub count: usize,
    /// A window was dropped.
    pub is_short: bool,
    ghost within: { count ≤ length windows.now },
}

impl<'a> BufferWindows<'a> {
    ghost use Rattle.std.specs.Prelude.{[]};
    ghost use Rattle.tm_buffers.specs.Windows.{HasGathered};

    /// No windows yet.
    pub fn over(windows: &'a mut [Window]) -> BufferWindows<'a>
        ensures { HasGathered windows.entry.ghost_name windows.old [] result }
    {
        BufferWindows {
            windows,
            count: 0,
            is_short: false,
        }
    }
}

impl<'a> WindowWatch for BufferWindows<'a> {
    ghost use Rattle.std.specs.Prelude.{ℕ, List, [], ◌∷◌, ◌++◌};
    ghost use Rattle.tm_inner.specs.declared.window.Window.{Window};
    ghost use Rattle.tm_buffers.specs.Windows.{HasGathered};

    ghost took = { λ a window b. (lent : ℕ) (array windows : List Window) → HasGathered lent array windows a
        → HasGathered lent array (windows ++ window ∷ []) b };

    ghost told = { λ a item b. Unit {0} };

    fn phase(&mut self, _skip: u8, _cost: u64) {}

    fn window(&mut self, inner: &InnerDecoder, index: usize) {
        if self.count == self.windows.len() {
            self.is_short = true;
            return;
        }
        self.windows[self.count] = inner.window(index);
        self.count += 1;
    }
}
