//! Rows of flow caches.

use and_flow::FlowCache;
use and_policy::{FlowKey, Leaving, Outcome, Side, Tuple};
use std::io;

/// The key of a TCP flow from 10.0.0.1, port 4096, to 10.0.0.2. Of two ports whose high bytes differ by 1 and whose low bytes differ by 31 the other way
/// round, the flow hashes are equal.
fn key_of(side: Side, scope: u32, port: u32) -> FlowKey {
    FlowKey {
        side,
        scope,
        tuple: Tuple {
            protocol: 6,
            source: 0x0a00_0001,
            destination: 0x0a00_0002,
            source_port: 4096,
            destination_port: u16::try_from(port).unwrap_or(u16::MAX),
        },
    }
}

/// `make`; `put SCOPE PORT STAMP NUMBER`, where the outcome is the denial by the rule of that number; `look SCOPE PORT FLOOR`, which answers that number.
pub(crate) fn tell_cache(
    rt: &HostRuntime,
    cache: &mut FlowCache,
    side: Side,
    verb: &str,
    numbers: &[u32],
) -> io::Result<()> {
    if verb == "make" {
        if let Ok(made) = FlowCache::make(rt.alloc()) {
            *cache = made;
        }
        return Ok(());
    }
    match numbers {
        [scope, port, stamp, number] => {
            let outcome = Outcome::Leaving(Leaving::Denied { number: *number });
            cache.put(&key_of(side, *scope, *port), *stamp, outcome);
            Ok(())
        }
        [scope, port, floor] => match cache.look(&key_of(side, *scope, *port), *floor) {
            Some(Outcome::Leaving(Leaving::Denied { number })) => println!(rt; "{number}"),
            Some(_) => println!(rt; "another"),
            None => println!(rt; "none"),
        },
        _ => println!(rt; "no such call"),
    }
}
