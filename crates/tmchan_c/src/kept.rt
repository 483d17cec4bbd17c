// Room for a stream on the heap, or for none.
ghost use Rattle.std.specs.Prelude.{◌≡◌, Option, None, Some, IsSome};
ghost use Rattle.tmchan_c.specs.declared.stream.Stream.{Stream};
ghost use Rattle.tmchan_c.specs.Kept.{kept_owns, stream_coded};

use crate::parts::Parts;
use crate::stream::Stream;
use std::alloc::Global;
use std::marker::Model;

/// Owns what a `Box<Stream>` owns, or nothing. C passes it: so it has the address as that of an octet, and no type
/// parameter.
#[repr(C)]
#[derive(Drop)]
pub struct Kept {
    ptr: *mut u8,
    alloc: Global,
    pub ghost value: { Option Stream } by { stream_coded },
}

impl Model for Kept {
    ghost also_owns = { λ k. kept_owns k.alloc k.ptr k.value };
}

// It may go to another thread, as the box of a stream may.
unsafe impl Send for Kept {}

impl Kept {
    pub fn of(parts: Parts<Stream, Global>) -> Kept
        ensures { result.value ≡ Some parts.value }
    {
        let Parts { ptr, alloc } = parts;
        Kept {
            ptr: ptr as *mut u8,
            alloc,
        }
    }

    pub fn into_parts(self) -> Parts<Stream, Global>
        requires { IsSome self.value }
        ensures { self.value ≡ Some result.value }
    {
        let Kept { ptr, alloc } = self;
        Parts {
            ptr: ptr as *mut Stream,
            alloc,
        }
    }

    pub fn none(alloc: Global) -> Kept
        ensures { result.value ≡ None }
    {
        Kept {
            ptr: std::ptr::null_mut(),
            alloc,
        }
    }
}
