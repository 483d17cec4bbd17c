// What `decode` makes of octets in which transfer frames were sent.
ghost use Rattle.std.specs.Prelude.{◌≡◌, ◌⊎◌, ℕ, List};
ghost use Rattle.tm_config.specs.Accepted.{IsAccepted};
ghost use Rattle.tm_config.specs.Configuration.{Configuration};
ghost use Rattle.tm_cli.specs.Decode.{decode_meaning};
ghost use Rattle.tm_cli.specs.Link.{KeepsCleanLink, KeepsDisturbedLink, KeepsComplementedInput, KeepsComplementedSymbols, KeepsFound};
ghost use Rattle.tm_driver.specs.Meaning.{Ends, Taken};
ghost use Rattle.tm_driver.specs.Statuses.{status_of};
ghost use Rattle.tm_driver.specs.declared.ending.Ending.{Ending};

use tm_channel::{clean_law, disturbed_law, found_law, items_law, polarity_law, received_law};
use tm_inner::inner_law;
use tm_windows::phase_law;

/// Where `decode` reads its whole input, sent frames come back, as far as they were not disturbed too much, and in the
/// other polarity too; and where codeblocks are looked for inside others, whatever comes before. It does nothing.
pub fn link_law()
    ensures clean { (ending : Ending) (status : ℕ) (c : Configuration) (octets : List ℕ) (taken : Taken)
        → IsAccepted c → status ≡ status_of ending
        → Ends ending (decode_meaning c) c.limit octets taken → (status ≡ 0) ⊎ (status ≡ 1)
        → KeepsCleanLink status c octets taken }
    ensures disturbed { (ending : Ending) (status : ℕ) (c : Configuration) (octets : List ℕ) (taken : Taken)
        → IsAccepted c → status ≡ status_of ending
        → Ends ending (decode_meaning c) c.limit octets taken → (status ≡ 0) ⊎ (status ≡ 1)
        → KeepsDisturbedLink status c octets taken }
    ensures complemented_input { (ending : Ending) (status : ℕ) (c : Configuration) (octets : List ℕ) (taken : Taken)
        → IsAccepted c → status ≡ status_of ending
        → Ends ending (decode_meaning c) c.limit octets taken → (status ≡ 0) ⊎ (status ≡ 1)
        → KeepsComplementedInput c octets taken }
    ensures complemented_symbols { (ending : Ending) (status : ℕ) (c : Configuration) (octets : List ℕ) (taken : Taken)
        → IsAccepted c → status ≡ status_of ending
        → Ends ending (decode_meaning c) c.limit octets taken → (status ≡ 0) ⊎ (status ≡ 1)
        → KeepsComplementedSymbols status c octets taken }
    ensures found { (ending : Ending) (status : ℕ) (c : Configuration) (octets : List ℕ) (taken : Taken)
        → IsAccepted c → status ≡ status_of ending
        → Ends ending (decode_meaning c) c.limit octets taken → (status ≡ 0) ⊎ (status ≡ 1)
        → KeepsFound c octets taken }
{
    items_law();
    received_law();
    clean_law();
    disturbed_law();
    found_law();
    polarity_law();
    inner_law();
    phase_law();
}
