// What a counter gives over a schedule of draws.
ghost use Rattle.std.specs.Prelude.{◌≡◌, ◌<◌, ◌≤◌, ℕ, List, length};
ghost use Rattle.std.specs.List.{range_with_len};
ghost use Rattle.tm_workers.specs.Numbers.{times, once_below};
ghost use Rattle.tm_workers.specs.Schedule.{values};

/// Over every schedule of m draws the numbers given are 0 to m-1, each once. So each number below n is given at most
/// once, and once where there are at least n draws.
pub fn schedule_law()
    ensures in_order { (schedule : List ℕ) → values schedule ≡ range_with_len 0 (length schedule) }
    ensures each_once { (schedule : List ℕ) (x : ℕ) → times x (values schedule) ≡ once_below x (length schedule) }
    ensures at_most_once { (schedule : List ℕ) (n x : ℕ) → x < n → times x (values schedule) ≤ 1 }
    ensures all_below { (schedule : List ℕ) (n x : ℕ) → n ≤ length schedule → x < n → times x (values schedule) ≡ 1 }
{}
