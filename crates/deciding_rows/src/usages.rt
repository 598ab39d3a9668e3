//! Rows of usage.
ghost use Rattle.std.specs.Prelude.{◌≤◌};

use and_policy::{NoMemory, UsageKey};
use and_usage::Usage;
use std::alloc::Global;
use std::io;
use std::marker::Model;

/// Usage, and how much was added in all, so that no key's bytes grow past 64 bits.
#[derive(Drop)]
pub struct Counted {
    usage: Usage,
    total: u64,
}

impl Model for Counted {
    ghost use Rattle.std.specs.Prelude.{◌≤◌};
    ghost use Rattle.and_policy.specs.declared.port.UsageKey.{UsageKey};
    ghost use Rattle.and_usage.specs.Counting.{UsageView, bytes_of};

    ghost Value = { UsageView };

    ghost view = { λ c. c.usage };

    ghost invariant = { λ c. (key : UsageKey) → bytes_of key c.usage.used ≤ c.total };
}

#[tactic(auto, using(crate::proofs::Adding::use_bytes))]
impl Counted {
    /// No usage.
    pub(crate) fn make(alloc: Global) -> Result<Counted, NoMemory> {
        Ok(Counted {
            usage: Usage::make(alloc)?,
            total: 0,
        })
    }

    /// So many bytes more for the key.
    fn add(&mut self, alloc: Global, key: UsageKey, bytes: u64) -> Result<(), NoMemory> {
        let Some(total) = self.total.checked_add(bytes) else {
            return Err(NoMemory);
        };
        self.usage.reserve(alloc, 1)?;
        self.usage.add(key, bytes);
        self.total = total;
        Ok(())
    }

    /// No usage any more.
    fn clear(&mut self) {
        self.usage.clear();
    }
}

/// The keys that have reached the threshold, or `none`.
fn tell_over(rt: &HostRuntime, usage: &Usage, threshold: u32) -> io::Result<()> {
    let Ok(keys) = usage.over(rt.alloc(), u64::from(threshold)) else {
        return println!(rt; "no memory");
    };
    print!(rt; "over {threshold}:")?;
    for key in &keys {
        let (host, net, ip) = (key.host, key.net, key.ip);
        print!(rt; " {host}:{net}:{ip}")?;
    }
    println!(rt; "")
}

/// `clear`, `add HOST NET ADDRESS BYTES`; `over THRESHOLD`, which answers the keys.
pub(crate) fn tell_usage(
    rt: &HostRuntime,
    usage: &mut Counted,
    verb: &str,
    numbers: &[u32],
) -> io::Result<()> {
    match (verb, numbers) {
        ("clear", []) => usage.clear(),
        ("add", [host, net, ip, bytes]) => {
            let key = UsageKey {
                host: *host,
                net: *net,
                ip: *ip,
            };
            if usage.add(rt.alloc(), key, u64::from(*bytes)).is_err() {
                return println!(rt; "no memory");
            }
        }
        ("over", [threshold]) => tell_over(rt, &usage.usage, *threshold)?,
        _ => println!(rt; "no such call")?,
    }
    Ok(())
}
