// The rule of the tickets' table, and what its steps say.
ghost use Rattle.std.specs.Prelude.{◌≡◌, ◌<◌, []};
ghost use Rattle.tm_workers.specs.Drawing.{Rule, Drew, Counted, remaining_part, cut_part, both_parts, first_view, left_view};

use crate::seats::View;
use atomic_table::{Join, Play, Seat, Shared, Split, TableRule};
use std::marker::Brand;

/// Word 0 is the counter. Each number below the limit that it has passed was drawn once, by one seat.
pub struct EachOnce;

impl TableRule<(), View, u32> for EachOnce {
    ghost holds = { Rule };

    ghost first = { first_view };
}

/// A draw.
pub struct Draws;

impl Play<(), View> for Draws {
    ghost then = { Drew };
}

/// A load, which says that a seat has at most all shares.
pub struct Counts;

impl Play<(), View> for Counts {
    ghost then = { Counted };
}

// A cut of shares. How many are cut off is known only at run time, so a call picks the parts.
impl Split<View> for Brand {
    ghost left = { λ v. v };

    ghost right = { λ v. v };
}

/// Two seats in one.
pub struct Both;

impl Join<View> for Both {
    ghost both = { both_parts };

    ghost spent = { left_view };
}

// Cuts shares off a seat's view.
pub fn cut_shares<C: Split<View>>(
    shared: &Shared<(), View, u32, EachOnce>,
    place: &mut Seat<(), View>,
    part: u32,
) -> Seat<(), View>
    requires parts { (C.left place.old.me.0 ≡ remaining_part part place.old.me.0)
        × (C.right place.old.me.0 ≡ cut_part part place.old.me.0) }
    requires table { place.old.table_id ≡ shared.now.table_id }
    requires word { 0 < shared.now.table_id.words }
    requires fewer { (0 < part) × (part < place.old.me.0.shares) }
    ensures same { (place.new.table_id ≡ place.old.table_id) × (place.new.id ≡ place.old.id) }
    ensures kept { place.new.me ≡ (remaining_part part place.old.me.0, place.old.me.1) }
    ensures cut { (result.table_id ≡ place.old.table_id) × (result.me ≡ (cut_part part place.old.me.0, [])) }
{
    shared.split_seat::<C>(place)
}
