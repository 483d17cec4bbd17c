// Gives a receiver octets, and has what it hands over taken, by all workers of its configuration.
ghost use Rattle.std.specs.Prelude.{◌≡◌, false, length};
ghost use Rattle.std.specs.Thread.{IsSync};
ghost use Rattle.tm_base.specs.Handed.{on_handed};
ghost use Rattle.tm_channel.specs.ColumnDecoding.{AreColumns, AreColumnsDecoded};
ghost use Rattle.tm_channel.specs.OctetReceiving.{FeedHands, FinishHands};
ghost use Rattle.tm_cli.specs.Receiving.{IsByAll};

use std::thread::Threads;
use tm_channel::{Config, ItemWatch, Receiver, Totals, decode_columns};
use tm_inner::NoWatch;
use tm_windows::Threaded;
use tm_workers::{OpenGate, Word};

/// Gives a receiver the next octets, and hands over what is due with them.
pub fn receive<R: Threads + Sync, T: ItemWatch>(
    rt: &R,
    receiver: &mut Receiver,
    octets: &[u8],
    items: &mut T,
)
    requires { receiver.old.has_stopped ≡ false }
    ensures ready { receiver.new.has_stopped ≡ false }
    ensures config { receiver.new.config ≡ receiver.old.config }
    ensures by { IsByAll receiver.new }
    ensures handed { FeedHands (on_handed T.took_phase T.took) receiver.old receiver.new items.old items.new octets.now }
{
    let alloc = receiver.alloc();
    let decoder = |config: &Config, words: &mut [Word]|
        requires { IsSync R.row × AreColumns config.now (length words.old) }
        ensures { AreColumnsDecoded config.now words.old words.new }
    { decode_columns(rt, alloc, config, words, &OpenGate) };
    receiver.receive(&Threaded { rt }, &decoder, octets, &mut NoWatch, items);
}

/// Hands over what is left at the end of the octets. Returns what they came to.
pub fn finish<R: Threads + Sync, T: ItemWatch>(
    rt: &R,
    receiver: &mut Receiver,
    items: &mut T,
) -> Totals
    requires { receiver.old.has_stopped ≡ false }
    ensures config { receiver.new.config ≡ receiver.old.config }
    ensures by { IsByAll receiver.new }
    ensures handed { FinishHands (on_handed T.took_phase T.took) receiver.old items.old items.new result }
{
    let alloc = receiver.alloc();
    let decoder = |config: &Config, words: &mut [Word]|
        requires { IsSync R.row × AreColumns config.now (length words.old) }
        ensures { AreColumnsDecoded config.now words.old words.new }
    { decode_columns(rt, alloc, config, words, &OpenGate) };
    receiver
        .end(&Threaded { rt }, &decoder, &mut NoWatch, items)
        .unwrap()
}
