//! What usage is counted by, and the bytes of one key.
ghost use Rattle.std.specs.Prelude.{◌≡◌};
ghost use Rattle.and_events.specs.Usage as spec;

use and_policy::UsageKey;
use std::marker::Model;

/// The bytes of a key.
#[derive(Drop)]
pub struct Used {
    pub(crate) key: UsageKey,
    pub(crate) bytes: u64,
}

impl Model for Used {
    ghost use Rattle.and_events.specs.Usage as spec;

    ghost Value = { spec.Used };

    ghost view = { λ u. record { key = u.key; bytes = u.bytes } };
}

impl Used {
    /// These bytes of this key.
    pub(crate) fn new(key: UsageKey, bytes: u64) -> Used
        ensures { result ≡ record { key = key; bytes = bytes } }
    {
        Used { key, bytes }
    }

    /// The key.
    pub(crate) fn key(&self) -> UsageKey
        ensures { result ≡ self.now.key }
    {
        self.key
    }

    /// The bytes.
    pub(crate) fn bytes(&self) -> u64
        ensures { result ≡ self.now.bytes }
    {
        self.bytes
    }
}

/// Whether the keys are the same.
pub(crate) fn is_same_key(a: &UsageKey, b: &UsageKey) -> bool
    ensures { result ≡ spec.same_key a.now b.now }
{
    a.host == b.host && a.net == b.net && a.ip == b.ip
}

/// Whether the key comes before the other: by host, then network, then address.
pub(crate) fn is_before(a: &UsageKey, b: &UsageKey) -> bool
    ensures { result ≡ spec.key_before a.now b.now }
{
    a.host < b.host || (a.host == b.host && (a.net < b.net || (a.net == b.net && a.ip < b.ip)))
}
