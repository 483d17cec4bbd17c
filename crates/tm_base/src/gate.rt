// What a worker passes before it decodes a word or a window.

/// A worker calls `enter` with the number of a word or a window before it decodes it. A test of the sharing of the work
/// holds workers here.
pub trait Gate {
    fn enter(&self, index: u32);
}

/// A gate that holds nobody.
#[derive(Clone, Copy, Debug)]
pub struct OpenGate;

impl Gate for OpenGate {
    fn enter(&self, _index: u32) {}
}
