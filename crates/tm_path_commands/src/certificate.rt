// What `check` shows, and that what `certify` writes passes.
ghost use Rattle.std.specs.Prelude.{◌≡◌, ℕ, List, Option};
ghost use Rattle.tm_config.specs.Accepted.{IsAccepted};
ghost use Rattle.tm_config.specs.Configuration.{Configuration};
ghost use Rattle.tm_driver.specs.Meaning.{Ends, taken_by};
ghost use Rattle.tm_driver.specs.Statuses.{status_of};
ghost use Rattle.tm_driver.specs.declared.ending.Ending.{Ending};
ghost use Rattle.tm_path_commands.specs.Check.{check_meaning};
ghost use Rattle.tm_path_commands.specs.Shown.{ShowsLeast, PassesCertified};

use tm_cert_file::{passes_law, read_law, shown_law};

/// Where `check` returns 0, the paths of the certificate cost the least, and what `certify` writes passes. It does
/// nothing.
pub fn certificate_law()
    ensures shown { (ending : Ending) (status : ℕ) (c : Configuration) (octets : List ℕ)
        (taken taken_now noted noted_now : Option (List ℕ))
        → status ≡ status_of ending → Ends ending (check_meaning c) c.limit octets
        (taken_by taken taken_now noted noted_now) → status ≡ 0
        → ShowsLeast c octets taken taken_now }
    ensures passes { (ending : Ending) (status : ℕ) (c : Configuration) (octets : List ℕ)
        (taken taken_now noted noted_now : Option (List ℕ))
        → IsAccepted c → status ≡ status_of ending
        → Ends ending (check_meaning c) c.limit octets (taken_by taken taken_now noted noted_now)
        → PassesCertified status c octets noted noted_now }
{
    read_law();
    shown_law();
    passes_law();
}
