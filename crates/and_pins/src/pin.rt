//! One hairpin.

/// The hairpin of a VM at a host.
#[derive(Clone, Copy)]
pub struct Pin {
    /// The host that the VM has left.
    pub(crate) host: u32,
    /// The VM.
    pub(crate) vm: u32,
    /// The number of the log entry that made it, from 1.
    pub(crate) entry: u32,
}
