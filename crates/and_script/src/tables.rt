//! The fields of a scenario and of its items, as tables.

ghost use Rattle.std.specs.Prelude.{◌≡◌, map};
ghost use Rattle.and_script.specs.Tables as tables;
ghost use Rattle.and_script.specs.Tables.{row_view};

use and_events::{Node, What};
use and_policy::{Prefix, Side};

/// Which JSON values a field takes.
#[derive(Clone, Copy)]
pub(crate) enum Form {
    /// A whole number in this range.
    Whole { low: u32, high: u32 },
    /// A whole number up to 65,535.
    Priority,
    /// The name of a VM.
    VmName,
    /// An Ethernet address.
    Mac,
    /// An IPv4 address.
    Ip,
    /// An address prefix.
    Cidr,
    /// A protocol, by name or number.
    Protocol,
    /// A range of ports: a list of two numbers.
    Ports,
    /// `egress` or `ingress`.
    OnSide,
    /// `allow` or `deny`.
    Action,
    /// A truth value.
    Truth,
    /// `local`, `drop` or `peer`.
    TargetKind,
    /// The name of a host or a gateway.
    NodeName,
    /// `install` or `forward`.
    HoldKind,
    /// A list.
    Script,
}

/// The target of a route, before its peer is known.
#[derive(Clone, Copy)]
pub(crate) enum Toward {
    ToLocal,
    ToDrop,
    ToPeer,
}

/// What a field gives. A name and a list stay where they are.
#[derive(Clone, Copy)]
pub(crate) enum Given {
    /// Of a whole number or an IPv4 address.
    Number(u32),
    /// Of a priority.
    Priority(u16),
    /// Of an Ethernet address.
    Address(u64),
    /// Of a field that may be left out and was.
    Absent,
    Named,
    Within(Prefix),
    OfProtocol(Option<u8>),
    Between { low: u16, high: u16 },
    Sided(Side),
    /// Of an action or a truth value.
    Allows(bool),
    Going(Toward),
    At(Node),
    Holding(What),
    Listed,
}

/// What an item does.
#[derive(Clone, Copy)]
pub(crate) enum Command {
    AddNet,
    AddVm,
    RemoveVm,
    AddRule,
    DelRule,
    AddRoute,
    DelRoute,
    Tick,
    Wait,
    Send,
    Blackout,
    Resume,
    Hold,
    Free,
}

/// A check that failed.
#[derive(Clone, Copy, PartialEq, Eq)]
pub(crate) enum Cause {
    Field,
    Unknown,
    Range,
    Limit,
}

/// A field: its name, its form, and what it gives where it is left out; none where it may not be.
#[derive(Clone, Copy)]
pub(crate) struct Row {
    pub(crate) name: &'static str,
    pub(crate) form: Form,
    pub(crate) default: Option<Given>,
}

const NET: Row = Row {
    name: "net",
    form: Form::Whole {
        low: 1,
        high: 16777215,
    },
    default: None,
};

const NUMBER: Row = Row {
    name: "number",
    form: Form::Whole {
        low: 1,
        high: 4294967295,
    },
    default: None,
};

const VM: Row = Row {
    name: "vm",
    form: Form::VmName,
    default: None,
};

const HOST: Row = Row {
    name: "host",
    form: Form::Whole {
        low: 0,
        high: 4294967295,
    },
    default: None,
};

const TARGET: Row = Row {
    name: "target",
    form: Form::TargetKind,
    default: None,
};

const PREFIX: Row = Row {
    name: "prefix",
    form: Form::Cidr,
    default: None,
};

const EVERYWHERE: Option<Given> = Some(Given::Within(Prefix {
    address: 0,
    length: 0,
}));

const ALL_PORTS: Option<Given> = Some(Given::Between {
    low: 0,
    high: 65535,
});

const QUEUE: Form = Form::Whole { low: 1, high: 4096 };

static TOP_ROWS: [Row; 10] = [
    Row {
        name: "hosts",
        form: Form::Whole { low: 1, high: 64 },
        default: None,
    },
    Row {
        name: "gateways",
        form: Form::Whole { low: 1, high: 8 },
        default: None,
    },
    Row {
        name: "workers",
        form: Form::Whole { low: 1, high: 4 },
        default: Some(Given::Number(2)),
    },
    Row {
        name: "hop_limit",
        form: Form::Whole { low: 1, high: 32 },
        default: Some(Given::Number(16)),
    },
    Row {
        name: "out_queue",
        form: QUEUE,
        default: Some(Given::Number(256)),
    },
    Row {
        name: "wire_queue",
        form: QUEUE,
        default: Some(Given::Number(256)),
    },
    Row {
        name: "seal_queue",
        form: QUEUE,
        default: Some(Given::Number(256)),
    },
    Row {
        name: "threshold",
        form: Form::Whole {
            low: 1,
            high: 1000000000,
        },
        default: Some(Given::Number(20000)),
    },
    Row {
        name: "life",
        form: Form::Whole {
            low: 1,
            high: 10000,
        },
        default: Some(Given::Number(3)),
    },
    Row {
        name: "script",
        form: Form::Script,
        default: None,
    },
];

static NET_ROWS: [Row; 1] = [NET];

static VM_ROWS: [Row; 1] = [VM];

static NUMBERED_ROWS: [Row; 2] = [NET, NUMBER];

static ADD_VM_ROWS: [Row; 5] = [
    VM,
    NET,
    Row {
        name: "mac",
        form: Form::Mac,
        default: None,
    },
    Row {
        name: "ip",
        form: Form::Ip,
        default: None,
    },
    HOST,
];

static ADD_RULE_ROWS: [Row; 11] = [
    NET,
    NUMBER,
    Row {
        name: "priority",
        form: Form::Priority,
        default: None,
    },
    Row {
        name: "side",
        form: Form::OnSide,
        default: None,
    },
    Row {
        name: "action",
        form: Form::Action,
        default: None,
    },
    Row {
        name: "protocol",
        form: Form::Protocol,
        default: Some(Given::OfProtocol(None)),
    },
    Row {
        name: "source",
        form: Form::Cidr,
        default: EVERYWHERE,
    },
    Row {
        name: "destination",
        form: Form::Cidr,
        default: EVERYWHERE,
    },
    Row {
        name: "source_ports",
        form: Form::Ports,
        default: ALL_PORTS,
    },
    Row {
        name: "destination_ports",
        form: Form::Ports,
        default: ALL_PORTS,
    },
    Row {
        name: "sealed",
        form: Form::Truth,
        default: Some(Given::Allows(false)),
    },
];

static ROUTE_ROWS: [Row; 4] = [NET, NUMBER, PREFIX, TARGET];

static PEER_ROUTE_ROWS: [Row; 5] = [
    NET,
    NUMBER,
    PREFIX,
    TARGET,
    Row {
        name: "peer",
        form: Form::Whole {
            low: 1,
            high: 16777215,
        },
        default: None,
    },
];

static SEND_ROWS: [Row; 1] = [Row {
    name: "frames",
    form: Form::Whole {
        low: 1,
        high: 100000,
    },
    default: Some(Given::Absent),
}];

static VM_HOST_ROWS: [Row; 2] = [VM, HOST];

static HOLD_ROWS: [Row; 2] = [
    Row {
        name: "node",
        form: Form::NodeName,
        default: None,
    },
    Row {
        name: "what",
        form: Form::HoldKind,
        default: None,
    },
];

/// The fields of a scenario.
#[tactic(auto, unfolding(crate::specs::Tables::top_rows))]
pub(crate) fn top_rows() -> &'static [Row]
    ensures { map row_view result.now ≡ tables.top_rows }
{
    &TOP_ROWS
}

/// The fields of an item beside `do`. A route has a peer exactly where its target is the text `peer`.
pub(crate) fn item_rows(command: Command, peer: bool) -> &'static [Row]
    ensures { map row_view result.now ≡ tables.item_rows command peer }
{
    match command {
        Command::AddNet => &NET_ROWS,
        Command::AddVm => &ADD_VM_ROWS,
        Command::RemoveVm | Command::Resume => &VM_ROWS,
        Command::AddRule => &ADD_RULE_ROWS,
        Command::DelRule | Command::DelRoute => &NUMBERED_ROWS,
        Command::AddRoute => if peer { &PEER_ROUTE_ROWS } else { &ROUTE_ROWS },
        Command::Tick | Command::Wait => &[],
        Command::Send => &SEND_ROWS,
        Command::Blackout => &VM_HOST_ROWS,
        Command::Hold | Command::Free => &HOLD_ROWS,
    }
}

/// The command that a text names.
pub(crate) fn command_of(text: &str) -> Option<Command>
    ensures { result ≡ tables.command_of text.now }
{
    let command = match text {
        "add_net" => Command::AddNet,
        "add_vm" => Command::AddVm,
        "remove_vm" => Command::RemoveVm,
        "add_rule" => Command::AddRule,
        "del_rule" => Command::DelRule,
        "add_route" => Command::AddRoute,
        "del_route" => Command::DelRoute,
        "tick" => Command::Tick,
        "wait" => Command::Wait,
        "send" => Command::Send,
        "blackout" => Command::Blackout,
        "resume" => Command::Resume,
        "hold" => Command::Hold,
        "free" => Command::Free,
        _ => return None,
    };
    Some(command)
}
