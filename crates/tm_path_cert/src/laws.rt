// What holds of columns and the answers about them, over the definitions alone.
ghost use Rattle.std.specs.Prelude.{◌≡◌, ℕ, ◌+◌, ◌≤◌, List, length};
ghost use Rattle.tm_conv.specs.Path.{steps_size};
ghost use Rattle.tm_conv.specs.Best.{IsCandidate};
ghost use Rattle.tm_path_cert.specs.declared.verdicts.Verdict.{Verdict};
ghost use Rattle.tm_path_cert.specs.Claim.{Claim, is_start, path_cost};
ghost use Rattle.tm_path_cert.specs.Tests.{Pass};
ghost use Rattle.tm_path_cert.specs.Checking.{IsVerdict};

/// There is one answer on each path, metric and columns, and where it is yes no candidate costs less. It does nothing.
pub fn verdict_law()
    ensures exists { (claim : Claim) (columns : List (List ℕ)) (register : ℕ) (bits : List ℕ) (metric : ℕ)
        → (verdict : Verdict) × IsVerdict claim columns register bits metric verdict }
    ensures one { (claim : Claim) (columns : List (List ℕ)) (register : ℕ) (bits : List ℕ) (metric : ℕ)
        (verdict other : Verdict)
        → IsVerdict claim columns register bits metric verdict → IsVerdict claim columns register bits metric other
        → verdict ≡ other }
    ensures least { (claim : Claim) (columns : List (List ℕ)) (metric : ℕ) (steps initial : ℕ) (others : List ℕ)
        → Pass claim columns metric
        → length claim.soft ≡ steps_size claim.rate claim.first steps → length columns ≡ steps + 1
        → IsCandidate (is_start claim.starts) claim.rate claim.invert claim.first claim.soft initial others
        → metric ≤ path_cost claim initial others }
{}
