//! A gate between a take and its decision.

/// What a thread loop is to call between the take of a packet and its decision; nothing but a test
/// calls it yet. It takes no memory and changes nothing that contracts see, so a test can hold an actor
/// there.
pub trait Gate {
    /// The actor with this number has taken the packet with that number.
    fn at(&self, actor: u32, packet: u32);
}

/// A gate that returns at once.
#[derive(Debug, Clone, Copy)]
pub struct OpenGate;

impl Gate for OpenGate {
    fn at(&self, _actor: u32, _packet: u32) {}
}
