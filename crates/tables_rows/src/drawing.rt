//! Entries and orders by a seeded generator.
ghost use Rattle.std.specs.Prelude.{◌<◌, ◌≤◌};

use and_policy::{Entry, FlowKey, Order, Prefix, Route, Rule, Side, Target, Tuple};

/// Numbers by a linear congruential generator of 64 bits, whose higher half is given.
#[derive(Drop)]
pub struct Draws {
    state: u64,
}

impl Draws {
    pub(crate) fn new(seed: u32) -> Draws {
        Draws {
            state: u64::from(seed),
        }
    }

    /// A number below this one.
    pub(crate) fn below(&mut self, n: u32) -> u32
        requires { 0 < n }
        ensures { result < n }
    {
        self.state = self
            .state
            .wrapping_mul(6_364_136_223_846_793_005)
            .wrapping_add(1_442_695_040_888_963_407);
        ((self.state >> 32) % u64::from(n)) as u32
    }

    pub(crate) fn coin(&mut self) -> bool {
        self.below(2) == 0
    }

    /// A network; the fifth never comes to be.
    pub(crate) fn net(&mut self) -> u32 {
        1 + self.below(5)
    }

    /// A VM's number.
    pub(crate) fn vm(&mut self) -> u32 {
        self.below(24)
    }

    /// One of sixteen addresses.
    pub(crate) fn address(&mut self) -> u32 {
        0x0a00_0000 + self.below(16)
    }

    fn port(&mut self) -> u16 {
        (80 + self.below(3)) as u16
    }

    fn protocol(&mut self) -> u8 {
        match self.below(3) {
            0 => 6,
            1 => 17,
            _ => 1,
        }
    }

    pub(crate) fn side(&mut self) -> Side {
        if self.coin() {
            Side::Egress
        } else {
            Side::Ingress
        }
    }

    pub(crate) fn tuple(&mut self) -> Tuple {
        let protocol = self.protocol();
        let (source_port, destination_port) = if protocol == 1 {
            (0, 0)
        } else {
            (self.port(), self.port())
        };
        Tuple {
            protocol,
            source: self.address(),
            destination: self.address(),
            source_port,
            destination_port,
        }
    }

    /// A key of this tuple, for a VM or a network.
    pub(crate) fn key(&mut self, tuple: &Tuple) -> FlowKey {
        let side = self.side();
        let scope = match side {
            Side::Egress => self.vm(),
            Side::Ingress => self.net(),
        };
        FlowKey {
            side,
            scope,
            tuple: *tuple,
        }
    }

    // Prefixes that hold one another, down to a single address.
    fn prefix(&mut self) -> Prefix {
        let length = match self.below(6) {
            0 => 0,
            1 => 8,
            2 => 28,
            3 => 30,
            4 => 31,
            _ => 32,
        };
        Prefix {
            address: self.address(),
            length,
        }
    }

    fn rule(&mut self) -> Rule {
        let (low, high) = if self.coin() {
            (0, 65_535)
        } else {
            (81, self.port())
        };
        let protocol = if self.coin() {
            Some(self.protocol())
        } else {
            None
        };
        Rule {
            number: self.below(8),
            priority: self.below(3) as u16,
            side: self.side(),
            allow: self.coin(),
            sealed: self.coin(),
            protocol,
            source: self.prefix(),
            destination: self.prefix(),
            source_low: 0,
            source_high: 65_535,
            destination_low: low,
            destination_high: high,
        }
    }

    fn target(&mut self) -> Target {
        match self.below(4) {
            0 => Target::Drop,
            1 => Target::Local,
            _ => Target::Peer(self.net()),
        }
    }

    fn route(&mut self) -> Route {
        Route {
            number: self.below(12),
            prefix: self.prefix(),
            target: self.target(),
        }
    }

    /// An entry, which the log may refuse.
    pub(crate) fn entry(&mut self) -> Entry {
        let net = 1 + self.below(4);
        match self.below(17) {
            0 => Entry::AddNet { net },
            1..=5 => Entry::AddVm {
                vm: self.vm(),
                net,
                mac: u64::from(self.below(48)),
                ip: self.address(),
                host: self.below(4),
            },
            6 => Entry::RemoveVm { vm: self.vm() },
            7 => Entry::Place {
                vm: self.vm(),
                host: self.below(4),
            },
            8..=9 => Entry::AddRule {
                net,
                rule: self.rule(),
            },
            10 => Entry::DelRule {
                net,
                number: self.below(8),
            },
            11..=13 => Entry::AddRoute {
                net,
                route: self.route(),
            },
            14 => Entry::DelRoute {
                net,
                number: self.below(12),
            },
            _ => Entry::Tick,
        }
    }

    /// An order that lives for up to three ticks after these; one in four is over from the start.
    pub(crate) fn order(&mut self, ticks: u32) -> Order {
        Order {
            net: self.net(),
            ip: self.address(),
            to_net: self.net(),
            to_host: self.below(4),
            until: ticks.saturating_add(self.below(4)),
        }
    }
}
