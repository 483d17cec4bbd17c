// Laws of the places in a list of bits.
ghost use Rattle.std.specs.Prelude.{◌≡◌, ◌≤◌, ◌<◌, ◌+◌, ◌-◌, ◌*◌, ◌⊎◌, ◌↔◌, ℕ, Bool, true, false, List, [], ◌++◌, length, drop, map, Option, None, Some};
ghost use Rattle.std.specs.List.{AllByRecursion, Any, IsAmong};
ghost use Rattle.tm_base.specs.Marker.{most_tolerance, marker_size};
ghost use Rattle.tm_sync.specs.declared.found.Before.{Before};
ghost use Rattle.tm_sync.specs.Bits.{complement, flip};
ghost use Rattle.tm_sync.specs.Places.{Rules, wrong_bits, match_of, place_polarity, settled_by, places, found_at, complemented_place};
ghost use Rattle.tm_sync.specs.declared.found.Columns.{Columns};
ghost use Rattle.tm_sync.specs.Rescan.{Fits, Soundness, places_with, reach};
ghost use Rattle.tm_sync.specs.PlacesInside.{AreApart, AreInOrder, DifferInside, HasNoneInside, Hides, MayStand, never};
ghost use Rattle.tm_sync.specs.Marked.{Entry, IsMarked, joined, places_of, clean_entries, clean_places};

/// With a tolerance of at most 8 no 32 bits match both upright and inverted.
pub fn one_polarity_law()
    ensures { (bits : List Bool) (tolerance : ℕ) → length bits ≡ marker_size → tolerance ≤ most_tolerance
        → wrong_bits false bits ≤ tolerance → tolerance < wrong_bits true bits }
{}

/// Where inverted markers match too, the places in the complemented bits are those in the bits, each in the other
/// polarity; and so it is where they are looked for inside codeblocks too, if a codeblock is sound in one polarity where
/// its complement is in the other.
pub fn polarity_law()
    ensures places { (rules : Rules) (bits : List Bool) → rules.either ≡ true → rules.tolerance ≤ most_tolerance
        → places rules (complement bits) ≡ map complemented_place (places rules bits) }
    ensures inside { (rules : Rules) (columns : Option Columns) (sound other : Soundness) (bits : List Bool)
        → rules.either ≡ true → rules.tolerance ≤ most_tolerance
        → ((q : ℕ) (inverted : Bool) → other q (flip inverted) ≡ sound q inverted)
        → places_with rules columns other (complement bits)
        ≡ map complemented_place (places_with rules columns sound bits) }
{}

/// The places in a marked stream are exactly those of its marker parts: with their distances, bridges and polarities.
pub fn marked_law()
    ensures { (rules : Rules) (bits : List Bool) (entries : List Entry) (last : List Bool)
        → IsMarked rules bits entries last → places rules bits ≡ places_of rules 0 None entries }
{}

/// Codeblocks sent with their markers, and with no gap and no wrong bit, are a marked stream, and each is found at its
/// marker; but where there are some, and no more than further markers are to verify the first, none is found.
pub fn clean_law()
    ensures marked { (rules : Rules) (blocks : List (List Bool))
        → AllByRecursion (λ block. length block ≡ rules.block_bits) blocks
        → (blocks ≡ []) ⊎ (rules.verify < length blocks)
        → IsMarked rules (joined (clean_entries blocks) []) (clean_entries blocks) [] }
    ensures places { (rules : Rules) (blocks : List (List Bool))
        → AllByRecursion (λ block. length block ≡ rules.block_bits) blocks
        → (blocks ≡ []) ⊎ (rules.verify < length blocks)
        → places rules (joined (clean_entries blocks) []) ≡ clean_places rules.block_bits 0 blocks }
    ensures few { (rules : Rules) (blocks : List (List Bool))
        → AllByRecursion (λ block. length block ≡ rules.block_bits) blocks → length blocks ≤ rules.verify
        → places rules (joined (clean_entries blocks) []) ≡ [] }
{}

/// The places in a list that goes on are first those in its prefix, whose codeblocks end within the prefix, and then
/// others, which the prefix does not settle: their codeblocks end after it, or markers that verify them do.
pub fn longer_law()
    ensures prefix { (rules : Rules) (bits more : List Bool)
        → places rules (bits ++ more) ≡ places rules bits
        ++ drop (length (places rules bits)) (places rules (bits ++ more)) }
    ensures within { (rules : Rules) (bits : List Bool)
        → AllByRecursion (λ f. f.place + marker_size + rules.block_bits ≤ length bits) (places rules bits) }
    ensures after { (rules : Rules) (bits more : List Bool)
        → AllByRecursion (λ f. length bits < f.place + settled_by rules.verify rules.block_bits)
        (drop (length (places rules bits)) (places rules (bits ++ more))) }
{}

/// Each place takes the bits of a marker and of a codeblock, so bits have at most as many places as fit in them, and
/// the bits of `count` places that come after them bring at most `count` more, and those that they verify. Where places
/// are looked for inside codeblocks too, two may share these bits: of three in a row the last begins as many bits after
/// the first as a place takes, less those of the last symbols.
pub fn few_places_law()
    ensures all { (rules : Rules) (bits : List Bool)
        → length (places rules bits) * (marker_size + rules.block_bits) ≤ length bits }
    ensures more { (rules : Rules) (bits more : List Bool) (count : ℕ)
        → length more ≤ count * (marker_size + rules.block_bits)
        → length (places rules (bits ++ more)) ≤ length (places rules bits) + count + rules.verify }
    ensures all_inside { (rules : Rules) (columns : Columns) (sound : Soundness) (bits : List Bool) (count : ℕ)
        → length bits
        < marker_size + rules.block_bits + count * (marker_size + rules.block_bits - reach columns + 1)
        → length (places_with rules (Some columns) sound bits) ≤ 2 * count }
    ensures more_inside { (rules : Rules) (columns : Columns) (sound : Soundness) (bits more : List Bool) (count : ℕ)
        → Fits rules (Some columns)
        → length (bits ++ more) + settled_by rules.verify rules.block_bits
        < length bits + 1 + marker_size + rules.block_bits
        + count * (marker_size + rules.block_bits - reach columns + 1)
        → length (drop (length (places_with rules (Some columns) sound bits))
        (places_with rules (Some columns) sound (bits ++ more))) ≤ 2 * count }
{}

/// Where no further markers are to verify a place, it stands where the first 32 bits match.
pub fn no_verify_law()
    ensures { (rules : Rules) (before : Option Before) (bits : List Bool) → rules.verify ≡ 0
        → place_polarity rules before bits ≡ match_of rules bits }
{}

/// Where places are looked for inside codeblocks too: without columns they are the same as if they were not. In a list
/// that goes on they are first those in its prefix, whose codeblocks end within the prefix, and then others, which the
/// prefix does not settle. And only of codeblocks that are whole it matters whether they are sound.
pub fn rescan_law()
    ensures off { (rules : Rules) (sound : Soundness) (bits : List Bool)
        → places_with rules None sound bits ≡ places rules bits }
    ensures prefix { (rules : Rules) (columns : Option Columns) (sound : Soundness) (bits more : List Bool)
        → Fits rules columns
        → places_with rules columns sound (bits ++ more) ≡ places_with rules columns sound bits
        ++ drop (length (places_with rules columns sound bits)) (places_with rules columns sound (bits ++ more)) }
    ensures within { (rules : Rules) (columns : Option Columns) (sound : Soundness) (bits : List Bool)
        → AllByRecursion (λ f. f.place + marker_size + rules.block_bits ≤ length bits)
        (places_with rules columns sound bits) }
    ensures after { (rules : Rules) (columns : Option Columns) (sound : Soundness) (bits more : List Bool)
        → Fits rules columns
        → AllByRecursion (λ f. length bits < f.place + settled_by rules.verify rules.block_bits)
        (drop (length (places_with rules columns sound bits)) (places_with rules columns sound (bits ++ more))) }
    ensures whole { (rules : Rules) (columns : Option Columns) (sound other : Soundness) (bits : List Bool)
        → ((q : ℕ) (inverted : Bool) → q + marker_size + rules.block_bits ≤ length bits
        → sound q inverted ≡ other q inverted)
        → places_with rules columns sound bits ≡ places_with rules columns other bits }
{}

/// Where places are looked for inside codeblocks too: if no further markers are to verify one, each marker that matches
/// and has a sound codeblock is a place, whatever stands before it, but where a place with a sound codeblock hides it.
/// Places rise, and one inside another counts there. Of three in a row the last begins more bits after the first than a
/// marker and a codeblock have, less those of the last symbols.
pub fn found_law()
    ensures found { (rules : Rules) (columns : Columns) (sound : Soundness) (bits : List Bool) (at : ℕ)
        (inverted : Bool) → rules.verify ≡ 0 → at + marker_size + rules.block_bits ≤ length bits
        → match_of rules (drop at bits) ≡ Some inverted → sound at inverted ≡ true
        → IsAmong (places_with rules (Some columns) sound bits) (found_at at false inverted (drop at bits))
        ⊎ Any (Hides rules columns sound bits at) (places_with rules (Some columns) sound bits) }
    ensures order { (rules : Rules) (columns : Columns) (sound : Soundness) (bits : List Bool)
        → AreInOrder rules columns sound bits (places_with rules (Some columns) sound bits) }
    ensures apart { (rules : Rules) (columns : Columns) (sound : Soundness) (bits : List Bool)
        → AreApart (marker_size + rules.block_bits - reach columns) (places_with rules (Some columns) sound bits) }
{}

/// Where places are looked for inside codeblocks too: those in a marked stream are exactly those of its marker parts, if
/// each of these is bridged only where it may be, and no marker counts inside one. Codeblocks that are sound, sent with
/// their markers and with no gap and no wrong bit, are found at their markers.
pub fn marked_inside_law()
    ensures marked { (rules : Rules) (columns : Columns) (sound : Soundness) (bits : List Bool) (entries : List Entry)
        (last : List Bool) → IsMarked rules bits entries last
        → AllByRecursion (MayStand rules columns bits) (places_of rules 0 None entries)
        → AllByRecursion (HasNoneInside rules columns sound bits) (places_of rules 0 None entries)
        → places_with rules (Some columns) sound bits ≡ places_of rules 0 None entries }
    ensures clean { (rules : Rules) (columns : Columns) (sound : Soundness) (blocks : List (List Bool))
        → AllByRecursion (λ block. length block ≡ rules.block_bits) blocks
        → (blocks ≡ []) ⊎ (rules.verify < length blocks)
        → AllByRecursion (λ f. sound f.place f.inverted ≡ true) (clean_places rules.block_bits 0 blocks)
        → places_with rules (Some columns) sound (joined (clean_entries blocks) [])
        ≡ clean_places rules.block_bits 0 blocks }
{}

/// Where places are looked for inside codeblocks too, they are the same as if no codeblock were sound exactly where no
/// marker counts inside one of these; else the first that differs counts inside the place before it. If no codeblock is
/// sound, they are those that are found without looking inside, where each of these is bridged only if it may be.
pub fn difference_law()
    ensures same { (rules : Rules) (columns : Columns) (sound : Soundness) (bits : List Bool)
        → (places_with rules (Some columns) sound bits ≡ places_with rules (Some columns) never bits)
        ↔ AllByRecursion (HasNoneInside rules columns sound bits) (places_with rules (Some columns) never bits) }
    ensures first { (rules : Rules) (columns : Columns) (sound : Soundness) (bits : List Bool)
        → (places_with rules (Some columns) sound bits ≡ places_with rules (Some columns) never bits)
        ⊎ DifferInside rules columns sound bits (places_with rules (Some columns) sound bits)
        (places_with rules (Some columns) never bits) }
    ensures off { (rules : Rules) (columns : Columns) (bits : List Bool)
        → AllByRecursion (MayStand rules columns bits) (places rules bits)
        → places_with rules (Some columns) never bits ≡ places rules bits }
{}
