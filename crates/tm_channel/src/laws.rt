// What holds of received octets, over the definitions alone.
ghost use Rattle.std.specs.Prelude.{◌≡◌, ◌*◌, ◌++◌, ℕ, Bool, true, false, List, [], ◌∷◌, None, Option, length, map, replicate};
ghost use Rattle.std.specs.List.{AllByRecursion, concat};
ghost use Rattle.tm_base.specs.Bits.{AreOctets, bits_of};
ghost use Rattle.tm_base.specs.Handed.{Handed};
ghost use Rattle.tm_config.specs.Accepted.{IsAccepted};
ghost use Rattle.tm_viterbi.specs.declared.block.Start.TheVariants.{Any};
ghost use Rattle.tm_conv.specs.declared.rates.Rate.TheVariants.{R12};
ghost use Rattle.tm_config.specs.declared.values.Sought.TheVariants.{Find};
ghost use Rattle.tm_config.specs.Configuration.{Configuration, codeblock_length};
ghost use Rattle.tm_windows.specs.declared.choosing.Chosen.{Chosen};
ghost use Rattle.tm_inner.specs.Inner.{Inner, IsStartKnown};
ghost use Rattle.tm_viterbi.specs.Clean.{complemented_octets};
ghost use Rattle.tm_inner.specs.Phase.{IsChosen, with_phase};
ghost use Rattle.tm_codeblock.specs.Frames.{whole_frames};
ghost use Rattle.tm_codeblock.specs.ReceivedCodeblock.{is_sound, received_columns};
ghost use Rattle.tm_channel.specs.Sent.{cadus, sent, sent_phase};
ghost use Rattle.tm_channel.specs.Items.{ItemValue, frames_of, complemented_item, dropped_item, dropping, is_given};
ghost use Rattle.tm_channel.specs.declared.totals.Totals.{Totals};
ghost use Rattle.tm_channel.specs.Handing.{AreReceived, AreReceivedDue, AreReceivedFirst, AreReceivedPrefix, clean_totals};
ghost use Rattle.tm_channel.specs.Receive.{Receive, ReceiveDue, ReceiveFirst, ReceivePrefix};
ghost use Rattle.tm_channel.specs.SentStream.{AreAsSent, AreNear, AreWithin, IsFrame, IsNear, IsSent, SentUnit, clean_items, found_frames, sent_columns, unit_frames, unit_places};
ghost use Rattle.tm_channel.specs.SoundCodeblocks.{IsFoundAt, IsSoundAt};
ghost use Rattle.tm_channel.specs.Disturbed as disturbed;

use tm_conv::{best_path_law, complement_law};
use tm_inner::{clean_inner_law, inner_law};
use tm_viterbi::complemented_blocks_law;
use tm_windows::{closed_prefix_law, due_windows_law, phase_law, whole_window_law};

/// Received octets come to one list of items, and each frame that is given is whole. Where what is left of frames with
/// an uncorrectable column is passed too, these are the same items but for such frames. It does nothing.
pub fn items_law()
    ensures exists { (c : Configuration) (phase : ℕ) (octets : List ℕ) → IsAccepted c
        → (items : List ItemValue) × Receive c phase octets items }
    ensures one { (c : Configuration) (phase : ℕ) (octets : List ℕ) (items others : List ItemValue) → IsAccepted c
        → Receive c phase octets items → Receive c phase octets others → items ≡ others }
    ensures passed { (c : Configuration) (phase : ℕ) (octets : List ℕ) (items : List ItemValue)
        → Receive c phase octets items → Receive (dropping c) phase octets (map dropped_item items) }
    ensures whole { (c : Configuration) (phase : ℕ) (octets : List ℕ) (items : List ItemValue) → IsAccepted c
        → Receive c phase octets items
        → AllByRecursion (λ item. is_given c item.answers ≡ true → length item.frame ≡ c.frame_length) items }
{
    inner_law();
}

/// The items that are due for octets stand first among the items of these octets with any others after them. It does
/// nothing.
pub fn due_items_law()
    ensures { (c : Configuration) (phase : ℕ) (octets more : List ℕ) (due items : List ItemValue) → IsAccepted c
        → ReceiveDue c phase octets due → Receive c phase (octets ++ more) items
        → (rest : List ItemValue) × (items ≡ due ++ rest) }
{
    closed_prefix_law();
    due_windows_law();
}

/// Items that are first ones for octets stand first among the items of these octets with any others after them, and
/// those that are first ones at the end of octets among the items of these. It does nothing.
pub fn first_items_law()
    ensures feed { (c : Configuration) (phase : ℕ) (octets more : List ℕ) (first items : List ItemValue) → IsAccepted c
        → ReceiveFirst c phase octets first → Receive c phase (octets ++ more) items
        → (rest : List ItemValue) × (items ≡ first ++ rest) }
    ensures finish { (c : Configuration) (phase : ℕ) (octets : List ℕ) (first items : List ItemValue) → IsAccepted c
        → ReceivePrefix c phase octets first → Receive c phase octets items
        → (rest : List ItemValue) × (items ≡ first ++ rest) }
{
    closed_prefix_law();
    due_windows_law();
    inner_law();
}

/// What is handed over for received octets, their phase where it is to be found and then items, is one list, which
/// there is, and so is what the octets come to. What is due, and the first of what is handed over, stand first in it,
/// whatever octets follow. It does nothing.
pub fn received_law()
    ensures exists { (c : Configuration) (octets : List ℕ) → IsAccepted c
        → (handed : List (Handed ItemValue)) × ((totals : Totals) × AreReceived c octets handed totals) }
    ensures one { (c : Configuration) (octets : List ℕ) (handed others : List (Handed ItemValue)) (totals sums : Totals)
        → IsAccepted c
        → AreReceived c octets handed totals → AreReceived c octets others sums → handed ≡ others }
    ensures totals { (c : Configuration) (octets : List ℕ) (handed others : List (Handed ItemValue))
        (totals sums : Totals) → AreReceived c octets handed totals → AreReceived c octets others sums → totals ≡ sums }
    ensures due { (c : Configuration) (octets more : List ℕ) (due all : List (Handed ItemValue)) (totals : Totals)
        → IsAccepted c
        → AreReceivedDue c octets due → AreReceived c (octets ++ more) all totals
        → (rest : List (Handed ItemValue)) × (all ≡ due ++ rest) }
    ensures first { (c : Configuration) (octets more : List ℕ) (first all : List (Handed ItemValue)) (totals : Totals)
        → IsAccepted c
        → AreReceivedFirst c octets first → AreReceived c (octets ++ more) all totals
        → (rest : List (Handed ItemValue)) × (all ≡ first ++ rest) }
    ensures prefix { (c : Configuration) (octets : List ℕ) (prefix all : List (Handed ItemValue)) (totals : Totals)
        → IsAccepted c
        → AreReceivedPrefix c octets prefix → AreReceived c octets all totals
        → (rest : List (Handed ItemValue)) × (all ≡ prefix ++ rest) }
{
    items_law();
    due_items_law();
    first_items_law();
    inner_law();
    phase_law();
    whole_window_law();
}

/// However the units of frames were disturbed, with gaps before and after them, their items stand exactly at their
/// markers, with distances, bridges and polarities, and each column that is within the repair bound says how many of
/// its symbols were wrong. Where that is so of every column, the frames come out in order. It does nothing.
pub fn disturbed_law()
    ensures items { (c : Configuration) (phase : ℕ) (octets : List ℕ) (bits : List Bool) (units : List SentUnit)
        (last : List Bool) (items : List ItemValue)
        → IsAccepted c → Inner c phase octets bits → IsSent c bits units last → Receive c phase octets items
        → AreAsSent c (unit_places c units) units items }
    ensures frames { (c : Configuration) (phase : ℕ) (octets : List ℕ) (bits : List Bool) (units : List SentUnit)
        (last : List Bool) (items : List ItemValue)
        → IsAccepted c → Inner c phase octets bits → IsSent c bits units last → Receive c phase octets items
        → AreNear c (unit_places c units) units → frames_of items ≡ unit_frames units }
{
    inner_law();
}

/// Where codeblocks are looked for inside others too, and no further markers are to verify one: each whole codeblock that
/// is correctable and follows a marker has its item, whatever comes before; but where that marker stands inside another
/// correctable one, and either before the last symbols of it or where a marker matches right after it. A codeblock that
/// was sent for a frame is correctable, if it was disturbed within the repair bound. It does nothing.
pub fn found_law()
    ensures found { (c : Configuration) (phase : ℕ) (octets : List ℕ) (bits : List Bool) (items : List ItemValue)
        (at : ℕ) (inverted : Bool)
        → c.rescan ≡ true → c.verify ≡ 0 → Inner c phase octets bits → Receive c phase octets items
        → IsSoundAt c bits at inverted → IsFoundAt c bits at inverted items }
    ensures near { (c : Configuration) (frame codeblock : List ℕ) → IsAccepted c → IsFrame c frame
        → length codeblock ≡ codeblock_length c → IsNear c frame codeblock → is_sound c codeblock ≡ true }
{
    inner_law();
}

/// There are octets of which `disturbed_law` speaks: of an accepted configuration with no inner code and a given phase,
/// where a further marker verifies each place that is searched for, and codeblocks are looked for inside others too. In
/// them stands a unit with a wrong bit in its marker and a wrong symbol, right after it one that verifies it and one
/// whose marker is bridged, and after a gap two inverted ones. No column is disturbed beyond the repair bound. The first
/// codeblock is one of which `found_law` speaks, where no marker is to verify it. It does nothing.
pub fn disturbed_octets_law()
    ensures accepted { IsAccepted disturbed.link }
    ensures verify { disturbed.link.verify ≡ 1 }
    ensures phase { IsChosen disturbed.link disturbed.octets None }
    ensures inner { Inner disturbed.link 0 disturbed.octets (bits_of disturbed.octets) }
    ensures sent { IsSent disturbed.link (bits_of disturbed.octets) disturbed.units disturbed.last }
    ensures places { unit_places disturbed.link disturbed.units
        ≡ record { place = 0; distance = 1; bridged = false; inverted = false }
        ∷ record { place = 168; distance = 0; bridged = false; inverted = false }
        ∷ record { place = 336; distance = 19; bridged = true; inverted = false }
        ∷ record { place = 505; distance = 0; bridged = false; inverted = true }
        ∷ record { place = 673; distance = 0; bridged = false; inverted = true } ∷ [] }
    ensures wrong { AreWithin 0 (received_columns disturbed.link (0 ∷ 0 ∷ 1 ∷ replicate 14 0))
        (sent_columns disturbed.link disturbed.frame) → ⊥ }
    ensures near { AreNear disturbed.link (unit_places disturbed.link disturbed.units) disturbed.units }
    ensures sound { IsSoundAt (record disturbed.link { verify = 0 }) (bits_of disturbed.octets) 0 false }
{}

/// The items of what is sent for octets, where none is skipped, nothing was disturbed and it is known where the first
/// path starts: the whole frames of the octets, in order and with nothing wrong; but none where there are no more of
/// them than further markers are to verify the first. Their frames joined are these. Where the phase is to be found
/// none of the octets is skipped, at no cost, and it is handed over before the items. All bits come, and no octet is
/// dropped between windows. It does nothing.
pub fn clean_law()
    ensures items { (c : Configuration) (octets : List ℕ) (items : List ItemValue) → IsAccepted c → c.skip ≡ 0
        → IsStartKnown c → AreOctets octets → Receive c 0 (sent c octets) items
        → items ≡ clean_items c 0 (found_frames c (whole_frames c.frame_length octets)) }
    ensures frames { (c : Configuration) (at : ℕ) (frames : List (List ℕ))
        → frames_of (clean_items c at frames) ≡ concat frames }
    ensures phase { (c : Configuration) (octets : List ℕ) (chosen : Option Chosen) → c.skip ≡ 0
        → IsChosen c (sent c octets) chosen → chosen ≡ sent_phase c }
    ensures handed { (c : Configuration) (octets : List ℕ) (handed : List (Handed ItemValue)) (totals : Totals)
        → IsAccepted c → c.skip ≡ 0 → IsStartKnown c → AreOctets octets
        → AreReceived c (sent c octets) handed totals
        → handed ≡ with_phase (sent_phase c)
        (clean_items c 0 (found_frames c (whole_frames c.frame_length octets))) }
    ensures totals { (c : Configuration) (octets : List ℕ) (handed : List (Handed ItemValue)) (totals : Totals)
        → IsAccepted c → c.skip ≡ 0 → IsStartKnown c → AreReceived c (sent c octets) handed totals
        → totals ≡ clean_totals c (8 * length (cadus c octets)) }
{
    clean_inner_law();
    best_path_law();
}

/// Where inverted markers match too: with no inner code, the items of octets with each bit complemented are those of
/// the octets, each in the other polarity. At rate 1/2, where paths start from any register and none is skipped, so are
/// those of the symbols that are sent for octets, each complemented. Their phase is that of the symbols as they are
/// sent, at any rate; all bits come, and no octet is dropped between windows. It does nothing.
pub fn polarity_law()
    ensures uncoded { (c : Configuration) (phase : ℕ) (octets : List ℕ) (items : List ItemValue) → IsAccepted c
        → c.inner ≡ None → c.polarity ≡ Find → AreOctets octets
        → Receive c phase octets items → Receive c phase (complemented_octets octets) (map complemented_item items) }
    ensures half_rate { (c : Configuration) (octets : List ℕ) (items : List ItemValue) → IsAccepted c
        → c.inner ≡ Some R12 → c.polarity ≡ Find → c.start ≡ Any → c.skip ≡ 0 → AreOctets octets
        → Receive c 0 (complemented_octets (sent c octets)) items
        → items ≡ map complemented_item (clean_items c 0 (found_frames c (whole_frames c.frame_length octets))) }
    ensures phase { (c : Configuration) (octets : List ℕ) (chosen : Option Chosen) → c.skip ≡ 0
        → IsChosen c (complemented_octets (sent c octets)) chosen → chosen ≡ sent_phase c }
    ensures totals { (c : Configuration) (octets : List ℕ) (handed : List (Handed ItemValue)) (totals : Totals)
        → IsAccepted c → c.inner ≡ Some R12 → c.start ≡ Any → c.skip ≡ 0
        → AreReceived c (complemented_octets (sent c octets)) handed totals
        → totals ≡ clean_totals c (8 * length (cadus c octets)) }
{
    complemented_blocks_law();
    best_path_law();
    complement_law();
}
