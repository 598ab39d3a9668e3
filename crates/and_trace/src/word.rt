//! The words of the trace's lines.
ghost use Rattle.std.specs.Prelude.{◌≡◌};
ghost use Rattle.and_trace.specs.Words.{key_text};

/// A word that is written as it stands.
#[derive(Clone, Copy)]
pub enum Key {
    Append,
    Review,
    Hold,
    Free,
    Wait,
    Blackout,
    Resume,
    Finish,
    Inject,
    Announce,
    Installed,
    Take,
    Egress,
    Sealed,
    Route,
    Redirect,
    Ingress,
    Unpin,
    Queued,
    Full,
    Hops,
    Out,
    Wire,
    Seal,
    Fast,
    Slow,
    NoVm,
    Spoofed,
    Denied,
    Allow,
    Implied,
    Rule,
    Plain,
    Offload,
    Hover,
    Drop,
    NoOwner,
    Send,
    Vm,
    Running,
    Deliver,
    Hairpin,
    Absent,
}

/// A word of a line.
#[derive(Clone, Copy)]
pub enum Word {
    /// A word of the format.
    Text(Key),
    /// A number, in decimal.
    Number(u32),
    /// A host, as `h3`.
    AtHost(u32),
    /// A gateway, as `g0`.
    AtGate(u32),
    /// A host's worker, as `h3.w1`.
    HostWorker { host: u32, index: u32 },
    /// A host's coprocessor, as `h3.c`.
    HostCoproc(u32),
    /// A gateway's worker, as `g0.w`.
    GateWorker(u32),
}

impl Key {
    /// The text of the word.
    #[tactic(auto, unfolding(crate::specs::Words::key_text))]
    pub(crate) fn text(self) -> &'static str
        ensures { result.now ≡ key_text self }
    {
        match self {
            Key::Append => "append",
            Key::Review => "review",
            Key::Hold => "hold",
            Key::Free => "free",
            Key::Wait => "wait",
            Key::Blackout => "blackout",
            Key::Resume => "resume",
            Key::Finish => "finish",
            Key::Inject => "inject",
            Key::Announce => "announce",
            Key::Installed => "installed",
            Key::Take => "take",
            Key::Egress => "egress",
            Key::Sealed => "sealed",
            Key::Route => "route",
            Key::Redirect => "redirect",
            Key::Ingress => "ingress",
            Key::Unpin => "unpin",
            Key::Queued => "queued",
            Key::Full => "full",
            Key::Hops => "hops",
            Key::Out => "out",
            Key::Wire => "wire",
            Key::Seal => "seal",
            Key::Fast => "fast",
            Key::Slow => "slow",
            Key::NoVm => "novm",
            Key::Spoofed => "spoofed",
            Key::Denied => "denied",
            Key::Allow => "allow",
            Key::Implied => "implied",
            Key::Rule => "rule",
            Key::Plain => "plain",
            Key::Offload => "offload",
            Key::Hover => "hover",
            Key::Drop => "drop",
            Key::NoOwner => "noowner",
            Key::Send => "send",
            Key::Vm => "vm",
            Key::Running => "running",
            Key::Deliver => "deliver",
            Key::Hairpin => "hairpin",
            Key::Absent => "absent",
        }
    }
}
