// A handle of a stream, as a program in C has it.
ghost use Rattle.std.specs.Prelude.{◌≡◌, ◌↔◌, None, Some, IfOk, IfErr, IsSome};
ghost use Rattle.std.specs.Option.{is_some, option_map};
ghost use Rattle.tmchan_c.specs.Refusal.{answered};
ghost use Rattle.tmchan_c.specs.Options.{configuration};
ghost use Rattle.tmchan_c.specs.Streams.{Opens, closed_refusal, open_refusal};

use crate::config::config_of;
use crate::kept::Kept;
use crate::parts::Parts;
use crate::refusal::Refusal;
use crate::stream::Stream;
use std::alloc::Global;
use std::mem::replace;
use tm_config::Config;

/// A stream that is open, or none. C begins with all its octets 0, and changes none of them.
#[repr(C)]
#[derive(Drop)]
pub struct Handle {
    pub is_open: u64,
    pub kept: Kept,
    ghost tie: { (is_open ≡ 1) ↔ IsSome kept.value },
}

/// Takes the stream out of a handle, which is closed then.
pub fn take(alloc: Global, handle: &mut Handle) -> Option<Box<Stream>>
    ensures taken { option_map (λ b. b.value) result ≡ handle.old.kept.value }
    ensures left { handle.new.kept.value ≡ None }
{
    let Handle { is_open, kept } = replace(
        handle,
        Handle {
            is_open: 0,
            kept: Kept::none(alloc),
        },
    );
    if is_open != 1 {
        return None;
    }
    Some(kept.into_parts().into_box())
}

/// Puts a stream into a handle that is closed, and hands the answer of the call through.
pub fn put<A>(handle: &mut Handle, stream: Box<Stream>, answer: A) -> A
    requires { handle.old.kept.value ≡ None }
    ensures handle { handle.new.kept.value ≡ Some stream.value }
    ensures answer { result ≡ answer }
{
    *handle = Handle {
        is_open: 1,
        kept: Kept::of(Parts::of(stream)),
    };
    answer
}

/// Opens a handle that is closed. Returns 0, or that there is not enough memory.
pub fn open(alloc: Global, handle: &mut Handle, stream: Stream) -> i32
    requires { handle.old.kept.value ≡ None }
    ensures { Opens result handle.new.kept.value (λ held. held ≡ Some stream) }
{
    match Box::new(alloc, stream) {
        Ok(stream) => put(handle, stream, 0),
        Err(_) => Refusal::Memory.answer(),
    }
}

/// The configuration with which a handle is to be opened, or why it cannot be.
pub fn to_open(handle: &Handle, options: &[u64]) -> Result<Config, Refusal>
    ensures ok { IfOk result (λ config. (open_refusal (is_some handle.now.kept.value) options.now ≡ None)
        × (config ≡ configuration options.now)
        × (handle.now.kept.value ≡ None)) }
    ensures err { IfErr result (λ refusal. open_refusal (is_some handle.now.kept.value) options.now ≡ Some refusal) }
{
    is_send(handle);
    if is_open(handle) {
        return Err(Refusal::Open);
    }
    config_of(options)
}

// So that it is proved that a handle may go to another thread: where a part of a stream may not, no call of this is.
fn is_send<T: Send>(_value: &T) {}

// Whether a handle is open.
fn is_open(handle: &Handle) -> bool
    ensures { result ≡ is_some handle.now.kept.value }
{
    handle.is_open == 1
}

/// Closes a stream, whichever it is, and gives its memory back. Returns 0, or that none is open.
#[unsafe(no_mangle)]
pub extern "C" fn tmchan_close(alloc: Global, handle: &mut Handle) -> i32
    ensures answer { result ≡ answered (closed_refusal handle.old.kept.value) }
    ensures closed { handle.new.kept.value ≡ None }
{
    match take(alloc, handle) {
        Some(stream) => {
            drop(stream);
            0
        }
        None => Refusal::Closed.answer(),
    }
}
