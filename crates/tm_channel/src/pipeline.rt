// Octets through both stages of a receiver: the inner code, and the search for codeblocks in its bits.
ghost use Rattle.std.specs.Prelude.{◌≡◌, ◌⊎◌, ◌<◌, ◌≤◌, ◌+◌, ◌*◌, ◌++◌, ℕ, nat_lt, if◌then◌else◌, List, [], true, false, drop, length, map};
ghost use Rattle.std.specs.Option.{is_some};
ghost use Rattle.tm_base.specs.Handed.{Handed, items_of, on_handed};
ghost use Rattle.tm_base.specs.Takers.{HandedOver};
ghost use Rattle.tm_config.specs.Accepted.{IsAccepted};
ghost use Rattle.tm_inner.specs.Inner.{nearest_bit, plain_bits};
ghost use Rattle.tm_inner.specs.InnerDecoding.{IsDrained, IsSettledQueue, Shares, has_phase_now, shared_by, sharing_in, unread};
ghost use Rattle.tm_inner.specs.InnerWindows.{AreDecoded, AreTold, AreWindows};
ghost use Rattle.tm_inner.specs.Phase.{IsChosen, with_phase};
ghost use Rattle.tm_inner.specs.Receiving.{Hands};
ghost use Rattle.tm_inner.specs.declared.window.Window.{Window};
ghost use Rattle.tm_channel.specs.ColumnDecoding.{IsColumnDecoder};
ghost use Rattle.tm_channel.specs.Items.{ItemValue};
ghost use Rattle.tm_channel.specs.Handing.{AreReceived};
ghost use Rattle.tm_channel.specs.Most.{AreFew};
ghost use Rattle.tm_channel.specs.Receiving.{piece_size};
ghost use Rattle.tm_channel.specs.OctetReceiving.{AwaitsBits, Decoded, MayNotWait, ReceivedAt, StagesFor, StagesHand, spare_bits};

use crate::bit_receiver::BitReceiver;
use crate::item::ItemWatch;
use crate::totals::Totals;
use tm_config::Config;
use tm_inner::{InnerDecoder, WindowWatch, inner_law, watch_ready};
use tm_windows::{Crew, due_windows_law};
use tm_workers::Word;

/// How many octets that hold the bits themselves are taken at a time.
pub const PIECE: usize = 4096;

/// Takes the next octets, and hands over what is due with them: the symbol phase, where it is chosen with them, and
/// items. Octets may wait in the first stage while the blocks that wait make no batch whole, so that more windows are
/// decoded side by side; what is due does not depend on the crew or the decoder.
pub fn take<C: Crew, F: Fn(&Config, &mut [Word]), W: WindowWatch, T: ItemWatch>(
    inner: &mut InnerDecoder,
    stream: &mut BitReceiver,
    crew: &C,
    decoder: &F,
    octets: &[u8],
    watch: &mut W,
    taker: &mut T,
)
    requires crew { C.is_ready crew.now × IsColumnDecoder F.Fn decoder.now }
    requires accepted { IsAccepted inner.old.config }
    requires of { stream.old.batch.config ≡ inner.old.config }
    requires awaits { AwaitsBits stream.old }
    ensures awaits { AwaitsBits stream.new }
    ensures inner { inner.new.config ≡ inner.old.config }
    ensures stream { stream.new.batch.config ≡ stream.old.batch.config }
    ensures handed { StagesHand (on_handed T.took_phase T.took) (record { inner = inner.old; bits = stream.old })
        (record { inner = inner.new; bits = stream.new }) taker.old taker.new octets.now }
    ensures watched { inner.old.has_ended ≡ false
        → Hands W.took AreTold inner.old inner.new watch.old watch.new octets.now }
    ensures all { C.share crew.now 2 ≤ 1 → AreDecoded inner.new }
    ensures shares { Shares (C.share crew.now) inner.old.queue inner.new.queue }
    ensures waits { is_some inner.old.config.inner ≡ true
        → ((stream.new ≡ stream.old) × (taker.new ≡ taker.old)) ⊎ MayNotWait inner.old octets.now
        (if nat_lt 1 (C.share crew.now 2) then spare_bits stream.old else 0) }
{
    if !inner.has_inner_code() {
        take_plain(inner, stream, crew, decoder, octets, watch, taker);
        return;
    }
    let mut done = inner.fill(octets);
    while done < octets.len() {
        take_decoded(inner, stream, crew, decoder, watch, taker);
        done += inner.fill(&octets[done..]);
    }
    if inner.may_wait(stream.spare(crew)) {
        return;
    }
    take_decoded(inner, stream, crew, decoder, watch, taker);
}

// Hands over the symbol phase, where it was chosen since.
fn hand_phase<T: ItemWatch>(inner: &mut InnerDecoder, taker: &mut T)
    ensures read { inner.new ≡ record inner.old { has_phase = has_phase_now inner.old } }
    ensures handed { HandedOver (on_handed T.took_phase T.took) taker.old
        (with_phase (unread inner.old) []) taker.new }
{
    if let Some(chosen) = inner.new_phase() {
        taker.phase(chosen.skip, chosen.cost);
    }
}

// Decodes what is due in the first stage, and gives its bits to the second.
fn take_decoded<C: Crew, F: Fn(&Config, &mut [Word]), W: WindowWatch, T: ItemWatch>(
    inner: &mut InnerDecoder,
    stream: &mut BitReceiver,
    crew: &C,
    decoder: &F,
    watch: &mut W,
    taker: &mut T,
)
    requires crew { C.is_ready crew.now × IsColumnDecoder F.Fn decoder.now }
    requires awaits { AwaitsBits stream.old }
    ensures awaits { AwaitsBits stream.new }
    ensures of { (inner.new.config ≡ inner.old.config) × (stream.new.batch.config ≡ stream.old.batch.config) }
    ensures settled { IsSettledQueue inner.old.queue → IsSettledQueue inner.new.queue }
    ensures drained { IsDrained inner.new.queue }
    ensures watched { Hands W.took AreTold inner.old inner.new watch.old watch.new [] }
    ensures sharing { sharing_in inner.new.queue ≡ shared_by (C.share crew.now) (sharing_in inner.old.queue) }
    ensures decoded { Decoded (on_handed T.took_phase T.took) (record { inner = inner.old; bits = stream.old })
        (record { inner = inner.new; bits = stream.new }) taker.old taker.new [] }
{
    let mut count = inner.decode(crew);
    hand_phase(inner, taker);
    while count > 0 {
        watch_ready(inner, watch);
        stream.note(inner.origin());
        stream.receive_ready(decoder, inner, taker);
        count = inner.decode(crew);
    }
}

/// Ends both stages, hands over what is left, and returns what all octets came to.
pub fn end<C: Crew, F: Fn(&Config, &mut [Word]), W: WindowWatch, T: ItemWatch>(
    inner: &mut InnerDecoder,
    stream: &mut BitReceiver,
    crew: &C,
    decoder: &F,
    watch: &mut W,
    taker: &mut T,
) -> Totals
    requires crew { C.is_ready crew.now × IsColumnDecoder F.Fn decoder.now }
    requires accepted { IsAccepted inner.old.config }
    requires awaits { AwaitsBits stream.old }
    ensures of { (inner.new.config ≡ inner.old.config) × (stream.new.batch.config ≡ stream.old.batch.config) }
    ensures handed { (last : List (Handed ItemValue))
        × HandedOver (on_handed T.took_phase T.took) taker.old last taker.new
        × ((given : List ℕ) (done : List (Handed ItemValue))
        → StagesFor (record { inner = inner.old; bits = stream.old }) given done
        → AreReceived inner.old.config given (done ++ last) result
        × (IsAccepted inner.old.config → AreFew inner.old.config 0 (items_of last))) }
    ensures chosen { (given : List ℕ) (done : List (Handed ItemValue))
        → StagesFor (record { inner = inner.old; bits = stream.old }) given done
        → IsChosen inner.old.config given inner.new.chosen }
    ensures watched { (last : List Window) × HandedOver W.took watch.old last watch.new
        × ((given : List ℕ) (done : List Window) → AreTold inner.old given done
        → AreWindows inner.old.config given (done ++ last)) }
    ensures sharing { sharing_in inner.new.queue ≡ shared_by (C.share crew.now) (sharing_in inner.old.queue) }
{
    due_windows_law();
    inner_law();
    inner.settle();
    take_decoded(inner, stream, crew, decoder, watch, taker);
    let end = inner.last();
    watch_ready(inner, watch);
    stream.note(inner.origin());
    stream.receive_ready(decoder, inner, taker);
    stream.hand_last(decoder, taker);
    Totals {
        bits: end.bits,
        slips: end.slips,
    }
}

// Takes octets that hold the bits themselves, and gives these to the second stage, those of `PIECE` octets at a time.
fn take_plain<C: Crew, F: Fn(&Config, &mut [Word]), W: WindowWatch, T: ItemWatch>(
    inner: &mut InnerDecoder,
    stream: &mut BitReceiver,
    crew: &C,
    decoder: &F,
    octets: &[u8],
    watch: &mut W,
    taker: &mut T,
)
    requires crew { C.is_ready crew.now × IsColumnDecoder F.Fn decoder.now }
    requires plain { is_some inner.old.config.inner ≡ false }
    requires of { stream.old.batch.config ≡ inner.old.config }
    requires awaits { AwaitsBits stream.old }
    ensures awaits { AwaitsBits stream.new }
    ensures inner { inner.new.config ≡ inner.old.config }
    ensures stream { stream.new.batch.config ≡ stream.old.batch.config }
    ensures handed { StagesHand (on_handed T.took_phase T.took) (record { inner = inner.old; bits = stream.old })
        (record { inner = inner.new; bits = stream.new }) taker.old taker.new octets.now }
    ensures watched { inner.old.has_ended ≡ false
        → Hands W.took AreTold inner.old inner.new watch.old watch.new octets.now }
    ensures shares { Shares (C.share crew.now) inner.old.queue inner.new.queue }
{
    let mut done = 0;
    while done < octets.len() {
        let end = done + PIECE.min(octets.len() - done);
        let piece = &octets[done..end];
        let skip = inner.bits_to_skip();
        inner.fill(piece);
        take_decoded(inner, stream, crew, decoder, watch, taker);
        take_after(inner, stream, skip, decoder, piece, taker);
        done = end;
    }
}

// Gives the bits that octets hold to the second stage, after the first `skip` ones.
fn take_after<F: Fn(&Config, &mut [Word]), T: ItemWatch>(
    inner: &InnerDecoder,
    stream: &mut BitReceiver,
    skip: u64,
    decoder: &F,
    octets: &[u8],
    taker: &mut T,
)
    requires decoder { IsColumnDecoder F.Fn decoder.now }
    requires plain { is_some stream.old.batch.config.inner ≡ false }
    requires awaits { AwaitsBits stream.old }
    requires most { length octets.now ≤ piece_size }
    ensures awaits { AwaitsBits stream.new }
    ensures handed { ReceivedAt T.took stream.old stream.new taker.old taker.new
        (drop skip (plain_bits inner.now.config octets.now)) }
{
    if !inner.is_packed() {
        take_nearest(inner, stream, skip, decoder, octets, taker);
        return;
    }
    let from = skip.min(8 * octets.len() as u64) as usize;
    stream.receive(decoder, octets, from, taker);
}

// Gives the bits that octets are nearest to to the second stage, after the first `skip` ones.
fn take_nearest<F: Fn(&Config, &mut [Word]), T: ItemWatch>(
    inner: &InnerDecoder,
    stream: &mut BitReceiver,
    skip: u64,
    decoder: &F,
    octets: &[u8],
    taker: &mut T,
)
    requires decoder { IsColumnDecoder F.Fn decoder.now }
    requires plain { is_some stream.old.batch.config.inner ≡ false }
    requires awaits { AwaitsBits stream.old }
    requires most { length octets.now ≤ piece_size }
    ensures awaits { AwaitsBits stream.new }
    ensures handed { ReceivedAt T.took stream.old stream.new taker.old taker.new
        (drop skip (map (nearest_bit inner.now.config) octets.now)) }
{
    let from = skip.min(octets.len() as u64) as usize;
    let mut room = [0; PIECE];
    let bits = &mut room[..octets.len() - from];
    inner.nearest_bits(&octets[from..], bits);
    stream.receive_bits(decoder, bits, taker);
}
