// The command `certify`: the certificate of the windows of the soft decoder.
ghost use Rattle.std.specs.Prelude.{◌≡◌, ℕ, ◌+◌, ◌<◌, ◌≤◌, ◌++◌, List, Some, false, true, length, slice_index_or, OnErr, IfOk, IfSome};
ghost use Rattle.tm_base.specs.Limits.{most_limit};
ghost use Rattle.tm_conv.specs.Path.{registers};
ghost use Rattle.tm_driver.specs.Answered.{AnsweredAlone};
ghost use Rattle.tm_driver.specs.Courses.{sink_call, source_call};
ghost use Rattle.tm_driver.specs.Staged.{Takes};
ghost use Rattle.tm_driver.specs.Writing.{Text};
ghost use Rattle.tm_viterbi.specs.WindowBlock.{WindowBlock};
ghost use Rattle.tm_windows.specs.Queue.{Queueing};
ghost use Rattle.tm_inner.specs.InnerDecoding.{IsDrained, IsSettledQueue, ready_in};
ghost use Rattle.tm_inner.specs.InnerWindows.{AreThere, shape_in};
ghost use Rattle.tm_inner.specs.Phase.{IsSoFarBy, phase_octets};
ghost use Rattle.tm_path_commands.specs.Certify.{certify_meaning};
ghost use Rattle.tm_path_commands.specs.Certifying.{Certifies, GaveReady, GaveWindow, certifier};

use std::alloc::Global;
use tm_base::{NoMemory, Sink, Source, SureSink};
use tm_cert_file::{certified_law, write_window};
use tm_config::Config;
use tm_driver::{Ending, Outcome, Stage, TextTaker, drive_stage};
use tm_inner::{InnerDecoder, handed_law};
use tm_viterbi::{WindowShape, first_start};
use tm_windows::Alone;

// No window of a certificate begins after this step.
const LAST_CERTIFIED: u64 = 1 << 44;

// A decoder whose windows are certified, and the register that the next one starts from, or None from any.
#[derive(Drop)]
struct Certifying {
    inner: InnerDecoder,
    start: Option<u8>,
}

impl Stage for Certifying {
    ghost use Rattle.std.specs.Prelude.{◌≡◌, ◌<◌, false, IfSome};
    ghost use Rattle.tm_conv.specs.Path.{registers};
    ghost use Rattle.tm_driver.specs.declared.ending.Outcome.TheVariants.{Done};
    ghost use Rattle.tm_path_commands.specs.Certifying.{CertifiesAll, CertifiesDue, certifier};

    ghost stands = { λ s t octets texts. CertifiesDue s.inner.config (certifier t.inner t.start) octets texts };

    ghost finished = { λ s t octets texts outcome. (outcome ≡ Done) × CertifiesAll s.inner.config octets texts };

    ghost is_ready = { λ t. (t.inner.has_ended ≡ false) × IfSome t.start (λ register. register < registers) };

    fn feed<W: TextTaker>(&mut self, piece: &[u8], texts: &mut W) -> bool {
        certify_octets(&mut self.inner, &mut self.start, piece, texts);
        true
    }

    fn finish<W: TextTaker>(&mut self, texts: &mut W) -> Outcome {
        self.inner.settle();
        certify_octets(&mut self.inner, &mut self.start, &[], texts);
        let _ = self.inner.last();
        certify_ready(&self.inner, &mut self.start, texts);
        Outcome::Done
    }
}

// Puts octets in, and gives the windows that are closed.
fn certify_octets<W: TextTaker>(
    inner: &mut InnerDecoder,
    start: &mut Option<u8>,
    octets: &[u8],
    texts: &mut W,
)
    requires going { 0 < length octets.now → inner.old.has_ended ≡ false }
    requires start { IfSome start.old (λ register. register < registers) }
    ensures config { inner.new.config ≡ inner.old.config }
    ensures ended { inner.new.has_ended ≡ inner.old.has_ended }
    ensures still { length octets.now ≡ 0 → IsSettledQueue inner.old.queue → IsSettledQueue inner.new.queue }
    ensures drained { IsDrained inner.new.queue }
    ensures start { IfSome start.new (λ register. register < registers) }
    ensures gave { Takes W.took (λ _. Certifies) (λ _. Certifies) (certifier inner.old start.old)
        (certifier inner.new start.new) texts.old texts.new octets.now }
    ensures so_far { inner.old.has_ended ≡ false → (given : List ℕ) (done : List Text)
        → length given + length octets.now ≤ most_limit → Certifies (certifier inner.old start.old) given done
        → IsSoFarBy inner.new.config (phase_octets inner.new.config (given ++ octets.now)) inner.new.chosen }
{
    certified_law();
    let mut done = 0;
    'runs: loop {
        let count = inner.decode(&Alone);
        certify_ready(inner, start, texts);
        if count > 0 {
            continue;
        }
        if done == octets.len() {
            return;
        }
        done += inner.fill(&octets[done..]);
    }
}

// Gives the windows whose blocks are ready.
fn certify_ready<W: TextTaker>(inner: &InnerDecoder, start: &mut Option<u8>, texts: &mut W)
    requires there { AreThere inner.now.queue }
    requires start { IfSome start.old (λ register. register < registers) }
    ensures start { IfSome start.new (λ register. register < registers) }
    ensures gave { GaveReady W.took inner.now start.old start.new texts.old texts.new }
{
    let Some(shape) = inner.shape() else {
        return;
    };
    for index in 0..inner.ready() {
        certify_window(inner, index, shape, start, texts);
    }
}

// Gives the window of a block that is ready; the next one starts from the register after it.
fn certify_window<W: TextTaker>(
    inner: &InnerDecoder,
    index: usize,
    shape: WindowShape,
    start: &mut Option<u8>,
    texts: &mut W,
)
    requires index { index < length (ready_in inner.now.queue) }
    requires there { AreThere inner.now.queue }
    requires shape { shape_in inner.now.queue ≡ Some shape }
    requires start { IfSome start.old (λ register. register < registers) }
    ensures start { IfSome start.new (λ register. register < registers) }
    ensures next { (block : WindowBlock)
        → start.new ≡ Some (slice_index_or (ready_in inner.now.queue) index block).end_state }
    ensures gave { (q : Queueing) (block : WindowBlock) → inner.now.queue ≡ Some q
        → GaveWindow W.took q index start.old (slice_index_or q.ready index block) texts.old texts.new }
{
    let first = inner.step(index);
    let octets = inner.octets(index);
    let block = inner.block(index);
    if first <= LAST_CERTIFIED {
        write_window(
            texts,
            shape.rate,
            shape.invert,
            first,
            *start,
            octets,
            &block,
        );
    }
    *start = Some(block.end_state);
}

/// Writes the certificate of the windows of the soft decoder for the soft octets of the source, up to the limit in
/// octets: of each window its numbers, its path's bits, its soft octets and the columns of least path metrics. With no
/// inner code it is empty. A phase that is to be followed is found once, since a certificate has no place for octets
/// that are dropped. After a fault nothing more is read or written. It takes all its memory before it reads.
pub fn certify<S: Source, O: Sink>(
    alloc: Global,
    config: &Config,
    source: &mut S,
    out: &mut O,
) -> Result<Ending, NoMemory>
    ensures answered { IfOk result (λ ending. AnsweredAlone true ending (certify_meaning config.now) config.now.limit
        (source_call S.Source source.old source.new) (sink_call O.Sink out.old out.new)) }
    ensures memory { OnErr result ((source.new ≡ source.old) × (out.new ≡ out.old)) }
{
    certified_law();
    handed_law();
    let found = config.unfollowed();
    let Ok(inner) = InnerDecoder::open(alloc, &found, 1, 0) else {
        return Err(NoMemory);
    };
    let mut certifying = Certifying {
        inner,
        start: first_start(found.values().start),
    };
    let mut notes = SureSink::new();
    Ok(drive_stage(found.limit(), source, &mut certifying, out, &mut notes))
}
