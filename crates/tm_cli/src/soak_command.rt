// The command `soak`: generated frames are sent, and what is received of them is counted.
ghost use Rattle.std.specs.Prelude.{◌≡◌, ◌⊎◌, ◌+◌, ◌*◌, ◌≤◌, ℕ, List, [], ◌++◌, length, false, Option, None, IfOk, OnErr};
ghost use Rattle.tm_config.specs.Accepted.{IsAccepted};
ghost use Rattle.tm_config.specs.Configuration.{Configuration, correctable};
ghost use Rattle.tm_conv.specs.Octets.{most_octet_symbols};
ghost use Rattle.tm_inner.specs.Sending.{InnerSenderStandsFor};
ghost use Rattle.tm_inner.specs.Symbols.{symbols_of_octets};
ghost use Rattle.tm_base.specs.Handed.{Handed, items_of};
ghost use Rattle.tm_channel.specs.Handing.{AreReceived};
ghost use Rattle.tm_channel.specs.Items.{ItemValue};
ghost use Rattle.tm_channel.specs.OctetReceiving.{ReceiverStandsFor};
ghost use Rattle.tm_cli.specs.Generated.{generated};
ghost use Rattle.tm_cli.specs.Receiving.{HandedDue, IsByAll};
ghost use Rattle.tm_cli.specs.Soak.{soak_meaning, soak_refusal};
ghost use Rattle.tm_cli.specs.Taken.{AreCounted};
ghost use Rattle.tm_driver.specs.Courses.{SinkCourse, sink_call};
ghost use Rattle.tm_driver.specs.Meaning.{Ends, taken_by};
ghost use Rattle.tm_driver.specs.Statuses.{is_sink_fault};
ghost use Rattle.tm_codeblock.specs.Cadu.{longest_cadu};

use crate::counts::Counts;
use crate::generated::generate_unit;
use crate::receiving::{finish, receive};
use crate::report_lines::frames_line;
use rand_pcg::Lcg64Xsh32;
use std::alloc::Global;
use std::thread::Threads;
use tm_base::{Failed, NoMemory, Sink};
use tm_channel::{Config, InnerSender, Item, ItemWatch, ROOM, Receiver, Totals, received_law};
use tm_codeblock::LONGEST_CADU;
use tm_driver::Ending;

// Counts the items, and writes none.
impl ItemWatch for Counts {
    ghost use Rattle.std.specs.Prelude.{◌≡◌};
    ghost use Rattle.tm_cli.specs.Taken.{Counted};

    ghost took = { Counted };

    ghost took_phase = { λ a _ _ b. b ≡ a };

    fn item(&mut self, item: &Item<'_>) {
        self.add(item.answers);
    }

    fn phase(&mut self, _skip: u8, _cost: u64) {}
}

// Sends a unit, whose symbols are put into the room, receives them, and counts the items that are due.
fn pass_unit<R: Threads + Sync>(
    rt: &R,
    unit: &[u8],
    room: &mut [u8; ROOM],
    sender: &mut InnerSender,
    receiver: &mut Receiver,
    counts: &mut Counts,
)
    requires unit { length unit.now ≤ longest_cadu }
    requires ready { receiver.old.has_stopped ≡ false }
    ensures config { sender.new.config ≡ sender.old.config }
    ensures stands { (given : List ℕ) → InnerSenderStandsFor sender.old given
        → InnerSenderStandsFor sender.new (given ++ unit.now) }
    ensures few { (given : List ℕ) → InnerSenderStandsFor sender.old given
        → length (symbols_of_octets sender.old.config (given ++ unit.now))
        ≤ length (symbols_of_octets sender.old.config given) + most_octet_symbols * longest_cadu }
    ensures ready { receiver.new.has_stopped ≡ false }
    ensures by { IsByAll receiver.new }
    ensures handed { (c : Configuration) (given : List ℕ) → InnerSenderStandsFor sender.old given
        → HandedDue c receiver.old counts.old (symbols_of_octets sender.old.config given)
        → HandedDue c receiver.new counts.new (symbols_of_octets sender.old.config (given ++ unit.now)) }
{
    let count = sender.symbols(unit, room);
    receive(rt, receiver, &room[..count], counts);
}

// Sends generated frames, and receives them. Returns what was counted of the items that are due.
#[tactic(auto, using(crate::proofs::Soaking::unit_few))]
fn pass_frames<R: Threads + Sync>(
    rt: &R,
    config: &Config,
    seed: u64,
    frames: u64,
    hits: u64,
    receiver: &mut Receiver,
) -> Counts
    requires hits { hits ≤ 2 * correctable config.now.code }
    requires ready { receiver.old.has_stopped ≡ false }
    requires by { IsByAll receiver.old }
    requires config { receiver.old.config ≡ config.now }
    requires new { ReceiverStandsFor receiver.old [] [] }
    ensures accepted { IsAccepted config.now }
    ensures few { length (generated config.now seed frames hits) ≤ most_octet_symbols * longest_cadu * frames }
    ensures ready { receiver.new.has_stopped ≡ false }
    ensures by { IsByAll receiver.new }
    ensures handed { HandedDue config.now receiver.new result (generated config.now seed frames hits) }
{
    let mut draws = Lcg64Xsh32::new(seed, 0);
    let mut sender = InnerSender::new(config);
    let mut counts = Counts::new();
    let size = (config.depth() * config.word_length()) as usize + 4;
    let mut units = [0; LONGEST_CADU];
    let unit = &mut units[..size];
    let mut room = [0; ROOM];
    for _frame in 0..frames {
        generate_unit(&mut draws, config, hits, unit);
        pass_unit(rt, unit, &mut room, &mut sender, receiver, &mut counts);
    }
    counts
}

// Sends generated frames, and receives them. Returns what was counted of all items, and what the octets came to.
fn count_frames<R: Threads + Sync>(
    rt: &R,
    config: &Config,
    seed: u64,
    frames: u64,
    hits: u64,
    receiver: &mut Receiver,
) -> (Counts, Totals)
    requires accepted { soak_refusal config.now seed frames hits ≡ None }
    requires ready { receiver.old.has_stopped ≡ false }
    requires by { IsByAll receiver.old }
    requires config { receiver.old.config ≡ config.now }
    requires new { ReceiverStandsFor receiver.old [] [] }
    ensures accepted { IsAccepted config.now }
    ensures by { IsByAll receiver.new }
    ensures counted { (handed : List (Handed ItemValue))
        × AreReceived config.now (generated config.now seed frames hits) handed result.1
        × AreCounted (items_of handed) result.0 }
{
    let mut counts = pass_frames(rt, config, seed, frames, hits, receiver);
    let totals = finish(rt, receiver, &mut counts);
    (counts, totals)
}

/// Sends frames that are generated by a seed, with `hits` symbols of each codeword changed on the way, and receives
/// them. Writes the last line of the report, and no other line. `Bad` comes where a codeblock has an uncorrectable
/// column. `NoMemory` comes before the first frame is generated; one frame at a time is held then.
pub fn soak<R: Threads + Sync, O: Sink>(
    rt: &R,
    alloc: Global,
    config: &Config,
    seed: u64,
    frames: u64,
    hits: u64,
    out: &mut O,
) -> Result<Ending, NoMemory>
    requires { soak_refusal config.now seed frames hits ≡ None }
    ensures ends { IfOk result (λ ending. (noted : Option (List ℕ))
        → Ends ending (soak_meaning seed frames hits config.now) config.now.limit []
        (taken_by (O.taken out.old) (O.taken out.new) noted noted)) }
    ensures memory { OnErr result (out.new ≡ out.old) }
    ensures answers { IfOk result (λ ending. (ending ≡ Ending.Done) ⊎ (ending ≡ Ending.Bad) ⊎
        (ending ≡ Ending.SinkFault)) }
    ensures sink { IfOk result (λ ending. SinkCourse (is_sink_fault ending)
        (sink_call O.Sink out.old out.new)) }
{
    received_law();
    let Ok(mut receiver) = Receiver::open(alloc, *config) else {
        return Err(NoMemory);
    };
    let (counts, totals) = count_frames(rt, config, seed, frames, hits, &mut receiver);
    match frames_line(out, counts.good, counts.bad, counts.fixed, totals.bits) {
        Ok(()) if counts.bad == 0 => Ok(Ending::Done),
        Ok(()) => Ok(Ending::Bad),
        Err(Failed) => Ok(Ending::SinkFault),
    }
}
