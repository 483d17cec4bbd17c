// The laws of records.
ghost use Rattle.std.specs.Prelude.{◌≡◌, ◌≤◌, ℕ, List};
ghost use Rattle.tm_rs_code.specs.Erasures.{NearestErased};
ghost use Rattle.tm_rs_code.specs.Code.{longest_word};
ghost use Rattle.tm_records.specs.declared.coding.Coding.{Coding};
ghost use Rattle.tm_records.specs.Records.{AreNearest, AreNearestDue};

/// There is just one thing that is nearest to each record of octets, those of whole batches with them, be it that none
/// is near.
pub fn nearest_records_law()
    ensures exists { (c : Coding) (octets : List ℕ) → (nearest : List NearestErased) × AreNearest c octets nearest }
    ensures one { (c : Coding) (octets : List ℕ) (a b : List NearestErased) → c.params.n ≤ longest_word
        → AreNearest c octets a → AreNearest c octets b → a ≡ b }
    ensures exists_due { (c : Coding) (octets : List ℕ)
        → (nearest : List NearestErased) × AreNearestDue c octets nearest }
    ensures one_due { (c : Coding) (octets : List ℕ) (a b : List NearestErased) → c.params.n ≤ longest_word
        → AreNearestDue c octets a → AreNearestDue c octets b → a ≡ b }
{}
