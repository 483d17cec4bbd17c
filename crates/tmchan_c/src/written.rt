// How much a call has written.
ghost use Rattle.std.specs.Prelude.{◌≡◌};
ghost use Rattle.tmchan_c.specs.Streams.{written_by};

use tm_buffers::Written;

/// Nothing was written.
pub const NOTHING: Written = Written {
    reports: 0,
    octets: 0,
    windows: 0,
};

/// What a call has written that returns how many octets these are, or the reason of the refusal.
pub fn written_by(answer: i64) -> Written
    ensures { result ≡ written_by answer }
{
    if answer < 0 {
        return NOTHING;
    }
    Written {
        reports: 0,
        octets: answer as u64,
        windows: 0,
    }
}
