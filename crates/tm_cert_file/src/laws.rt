// What holds of certificates, over the definitions alone.
ghost use Rattle.std.specs.Prelude.{◌≡◌, ℕ, ◌+◌, ◌-◌, ◌<◌, ◌≤◌, Bool, List, ◌++◌, length, map, take, Option};
ghost use Rattle.tm_base.specs.Bits.{AreOctets};
ghost use Rattle.tm_conv.specs.declared.rates.Rate.{Rate};
ghost use Rattle.tm_viterbi.specs.Settings.{Settings};
ghost use Rattle.tm_viterbi.specs.WindowBlock.{WindowBlock};
ghost use Rattle.tm_viterbi.specs.Blocks.{AreBlocksOf};
ghost use Rattle.tm_viterbi.specs.Due.{Place, Closed};
ghost use Rattle.tm_viterbi.specs.WindowSizes.{most_window};
ghost use Rattle.tm_cert_file.specs.declared.seen.Reason.{Reason};
ghost use Rattle.tm_cert_file.specs.declared.seen.Seen.{Seen};
ghost use Rattle.tm_cert_file.specs.declared.seen.Seen.TheVariants.{Failed};
ghost use Rattle.tm_cert_file.specs.Window.{Window};
ghost use Rattle.tm_cert_file.specs.Certificate.{AreCertified, IsCertificate};
ghost use Rattle.tm_cert_file.specs.Before.{Rules};
ghost use Rattle.tm_cert_file.specs.File.{IsRead, IsWhole, all_kept};
ghost use Rattle.tm_cert_file.specs.Shown.{AreAllShown};
ghost use Rattle.tm_cert_file.specs.Passes.{rules_by, block_of};

use tm_conv::columns_law;
use tm_path_cert::verdict_law;

/// The blocks of soft octets have one certificate. That of the blocks of closed windows precedes that of blocks after
/// them, and stays the same whatever octets come. It does nothing.
pub fn certified_law()
    ensures exists { (s : Settings) (octets : List ℕ) (blocks : List WindowBlock) (left : ℕ)
        → AreBlocksOf s octets blocks left
        → (text : List ℕ) × IsCertificate s octets blocks text }
    ensures first { (rate : Rate) (invert : Bool) (keep ahead : ℕ) (from to : Place) (blocks : List WindowBlock)
        → Closed rate invert keep ahead from blocks to
        → (text : List ℕ) × AreCertified rate invert from.starts from.t from.octets blocks text }
    ensures one { (rate : Rate) (invert : Bool) (starts : Option ℕ) (t : ℕ) (octets : List ℕ)
        (blocks : List WindowBlock) (text other : List ℕ)
        → AreCertified rate invert starts t octets blocks text → AreCertified rate invert starts t octets blocks other
        → text ≡ other }
    ensures append { (rate : Rate) (invert : Bool) (keep ahead : ℕ) (from to : Place) (first rest : List WindowBlock)
        (text more : List ℕ)
        → Closed rate invert keep ahead from first to → AreCertified rate invert from.starts from.t from.octets first
        text
        → AreCertified rate invert to.starts to.t to.octets rest more
        → AreCertified rate invert from.starts from.t from.octets (first ++ rest) (text ++ more) }
    ensures split { (rate : Rate) (invert : Bool) (keep ahead : ℕ) (from to : Place) (first rest : List WindowBlock)
        (whole : List ℕ)
        → Closed rate invert keep ahead from first to → AreCertified rate invert from.starts from.t from.octets
        (first ++ rest) whole
        → (text : List ℕ) × (more : List ℕ) × AreCertified rate invert from.starts from.t from.octets first text
        × AreCertified rate invert to.starts to.t to.octets rest more × (whole ≡ text ++ more) }
    ensures longer { (rate : Rate) (invert : Bool) (keep ahead : ℕ) (from to : Place) (blocks : List WindowBlock)
        (more text : List ℕ)
        → Closed rate invert keep ahead from blocks to
        → AreCertified rate invert from.starts from.t from.octets blocks text
        → AreCertified rate invert from.starts from.t (from.octets ++ more) blocks text }
{
    columns_law();
}

/// Any octets are read as windows that pass and one thing that is seen after them, in one way. Octets after others take
/// none of these windows back, and no reason. It does nothing.
pub fn read_law()
    ensures exists { (rules : Rules) (octets : List ℕ) → (windows : List Window) × (seen : Seen)
        × IsRead rules octets windows seen }
    ensures one { (rules : Rules) (octets : List ℕ) (windows others : List Window) (seen other : Seen)
        (read : IsRead rules octets windows seen) (again : IsRead rules octets others other)
        → (windows ≡ others) × (seen ≡ other) × (read.before ≡ again.before) × (read.rest ≡ again.rest) }
    ensures longer { (rules : Rules) (octets more : List ℕ) (windows all : List Window) (seen last : Seen)
        → IsRead rules octets windows seen → IsRead rules (octets ++ more) all last → (rest : List Window)
        × (all ≡ windows ++ rest) }
    ensures stays { (rules : Rules) (octets more : List ℕ) (windows : List Window) (reason : Reason)
        → IsRead rules octets windows (Failed reason) → IsRead rules (octets ++ more) windows (Failed reason) }
{
    verdict_law();
}

/// The windows of a certificate that is read to its end, with nothing against it, are those of the soft octets of their
/// kept steps: in each the path costs the metric, and no candidate costs less. The blocks of these octets have as many
/// steps, of which as many are kept, and no octet is left over. It does nothing.
pub fn shown_law()
    ensures shown { (rules : Rules) (octets : List ℕ) (windows : List Window) → IsWhole rules octets windows
        → AreAllShown rules (all_kept rules.rate 0 windows) windows }
    ensures steps { (s : Settings) (rules : Rules) (octets : List ℕ) (windows : List Window)
        (blocks : List WindowBlock) (left : ℕ)
        → s.rate ≡ rules.rate → s.keep ≡ rules.keep → s.ahead ≡ rules.ahead → AreAllShown rules octets windows
        → AreBlocksOf s octets blocks left
        → (map (λ (w : Window). w.steps) windows ≡ map (λ (block : WindowBlock). block.steps) blocks)
        × (map (λ (w : Window). w.kept) windows ≡ map (λ (block : WindowBlock). block.kept) blocks) × (left ≡ 0) }
{
    verdict_law();
}

/// The certificate of all blocks of soft octets passes, read by the same settings: it is whole, its windows are of
/// these blocks, and their kept octets are all but those left over. A window keeps a step or more, and has 69,632 steps
/// at most. It does nothing.
pub fn passes_law()
    ensures { (s : Settings) (octets : List ℕ) (blocks : List WindowBlock) (left : ℕ) (text : List ℕ)
        → 0 < s.keep → s.keep + s.ahead ≤ most_window → AreOctets octets
        → AreBlocksOf s octets blocks left → IsCertificate s octets blocks text
        → (windows : List Window) × IsWhole (rules_by s) text windows × (map block_of windows ≡ blocks)
        × (all_kept s.rate 0 windows ≡ take (length octets - left) octets) }
{}
