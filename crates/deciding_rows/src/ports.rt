//! Rows of ports.

use and_policy::Port;
use and_ports::Ports;
use std::io;

/// The ports of a VM at the first four hosts.
fn tell_vm(rt: &HostRuntime, ports: &Ports, vm: u32) -> io::Result<()> {
    print!(rt; "vm {vm}")?;
    for host in 0..4_u32 {
        match ports.state(host, vm) {
            Port::Absent => print!(rt; " absent")?,
            Port::Running => print!(rt; " running")?,
            Port::Paused => print!(rt; " paused")?,
            Port::Arriving => print!(rt; " arriving")?,
            Port::Hairpin { host, entry } => print!(rt; " hairpin:{host}:{entry}")?,
        }
    }
    println!(rt; "")
}

/// `make HOSTS VMS`, `boot HOST VM`, `halt VM`, `pause VM OLD NEW`, `resume VM OLD NEW ENTRY`, `unpin HOST VM`; `of VM`, which answers its ports.
pub(crate) fn tell_ports(
    rt: &HostRuntime,
    ports: &mut Ports,
    verb: &str,
    numbers: &[u32],
) -> io::Result<()> {
    match (verb, numbers) {
        ("make", [hosts, vms]) => {
            if let Ok(made) = Ports::make(rt.alloc(), *hosts, *vms) {
                *ports = made;
            }
        }
        ("boot", [host, vm]) => ports.boot(*host, *vm),
        ("halt", [vm]) => ports.halt(*vm),
        ("pause", [vm, old, new]) => ports.pause(*vm, *old, *new),
        ("resume", [vm, old, new, entry]) => ports.resume(*vm, *old, *new, *entry),
        ("unpin", [host, vm]) => ports.unpin(*host, *vm),
        ("of", [vm]) => tell_vm(rt, ports, *vm)?,
        _ => println!(rt; "no such call")?,
    }
    Ok(())
}
