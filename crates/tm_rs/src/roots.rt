// The places at which a polynomial is 0, by its values there.
ghost use Rattle.std.specs.Prelude.{◌≡◌, ◌≤◌, ℕ, List, length};
ghost use Rattle.tm_rs_code.specs.Pattern.{roots_below};
ghost use Rattle.tm_rs_code.specs.PlaceValues.{AreValues};
ghost use Rattle.tm_rs_code.specs.Code.{longest_word};

// How many of the places below n are roots.
pub fn count_roots(values: &[u8; 256], n: usize) -> usize
    requires { n ≤ longest_word }
    ensures { (poly : List ℕ) → AreValues poly n values.now → result ≡ length (roots_below poly n) }
{
    let mut count = 0;
    for p in 0..n {
        if values[p] == 0 {
            count += 1;
        }
    }
    count
}
