//! The tables of a gateway.
ghost use Rattle.std.specs.Prelude.{◌≡◌, ◌<◌, ◌-◌, ◌^◌, ◌++◌, ◌∷◌, [], None, List, length, OnOk, OnErr, IfOk};
ghost use Rattle.and_policy.specs.declared.entry.Entry.{Entry};
ghost use Rattle.and_policy.specs.Fitting.{fits, IsLog};
ghost use Rattle.and_policy.specs.Owners as owners;
ghost use Rattle.and_policy.specs.Programmes.{entries};
ghost use Rattle.and_policy.specs.Registers.{IsRegister, HasRoom};
ghost use Rattle.and_policy.specs.Routes as routes;
ghost use Rattle.and_routes.specs.Buckets.{IsPrefixes};

use crate::prefixes::Prefixes;
use and_policy::{
    Entry, Located, Name, NoMemory, Op, Register, Route, Routed, Routing, Tables, Target,
};
use std::alloc::Global;
use std::marker::Model;

/// The tables of a gateway. Contracts see the operations that were applied, the oldest first.
///
/// What they answer is promised where the entries among the operations are a log.
#[derive(Drop)]
pub struct GatewayTables {
    /// What was applied.
    ops: Vec<Op>,
    /// The VMs.
    register: Register,
    /// The live routes.
    prefixes: Prefixes,
}

impl Model for GatewayTables {
    ghost use Rattle.std.specs.Prelude.{List};
    ghost use Rattle.and_policy.specs.declared.entry.Op.{Op};
    ghost use Rattle.and_routes.specs.Gates.{IsKept};

    ghost Value = { List Op };

    ghost view = { λ t. t.ops.items };

    ghost invariant = { IsKept };
}

// Where a route of the network leads.
fn routing_by(net: u32, route: Option<Route>) -> Routing
    ensures { result ≡ routes.routing_by net route }
{
    let Some(route) = route else {
        return Routing::Into {
            by: Name::Implied,
            net,
        };
    };
    let by = Name::Rule(route.number);
    match route.target {
        Target::Local => Routing::Into { by, net },
        Target::Peer(peer) => Routing::Into { by, net: peer },
        Target::Drop => Routing::Dropped { by },
    }
}

// The register after one operation more, for which there is room.
fn note(register: &mut Register, op: &Op)
    requires { HasRoom register.old }
    ensures { (p : List Op) → IsLog None (entries (p ++ op.now ∷ [])) → IsRegister register.old (entries p) → IsRegister register.new (entries (p ++ op.now ∷ [])) }
{
    match op {
        Op::Entry(entry) => register.append(entry),
        Op::Offload(_) => {}
    }
}

// The routes after one operation more. After want of memory they are those of before.
fn note_routes(alloc: Global, prefixes: &mut Prefixes, op: &Op) -> Result<(), NoMemory>
    ensures ok { OnOk result ((p : List Op) → IsLog None (entries (p ++ op.now ∷ [])) → IsPrefixes prefixes.old (entries p) → IsPrefixes prefixes.new (entries (p ++ op.now ∷ []))) }
    ensures err { OnErr result ((k : List Entry) → IsPrefixes prefixes.old k → IsPrefixes prefixes.new k) }
{
    match op {
        Op::Entry(entry) => prefixes.append(alloc, entry),
        Op::Offload(_) => Ok(()),
    }
}

impl GatewayTables {
    /// The tables of no operations.
    ///
    /// # Errors
    ///
    /// Where memory is wanting; none is taken, so that never comes.
    pub fn make(alloc: Global) -> Result<GatewayTables, NoMemory>
        ensures { result ≡ Ok [] }
    {
        Ok(GatewayTables {
            ops: Vec::new(alloc),
            register: Register::new(alloc),
            prefixes: Prefixes::new(alloc),
        })
    }

    /// What the routes of the network say of a destination, and the place of its owner in the network where they lead. The
    /// address is the number whose highest byte is the first on the wire.
    pub fn route(&self, net: u32, destination: u32) -> Routed
        ensures { IsLog None (entries self.now) → result ≡ owners.routed (entries self.now) net destination }
    {
        match routing_by(net, self.prefixes.deciding(net, destination)) {
            Routing::Dropped { by } => Routed::Dropped { by },
            Routing::Into { by, net } => match self.register.owner_place(net, destination) {
                None => Routed::NoOwner { by },
                Some(host) => Routed::To { by, net, host },
            },
        }
    }

    /// The place of the destination's owner in the network itself. The address is the number whose highest byte is the first on
    /// the wire.
    pub fn locate(&self, net: u32, destination: u32) -> Located
        ensures { IsLog None (entries self.now) → result ≡ owners.located (entries self.now) net destination }
    {
        match self.register.owner_place(net, destination) {
            None => Located::NoOwner,
            Some(host) => Located::To { host },
        }
    }
}

impl Tables for GatewayTables {
    ghost ops = { λ t. t };

    ghost origin = { λ t. (0, 0) };

    fn at(&self) -> u32 {
        self.ops.len() as u32
    }

    fn ops(&self) -> &[Op] {
        &self.ops
    }

    fn apply(&mut self, alloc: Global, op: Op) -> Result<(), NoMemory> {
        self.ops.reserve(1).map_err(|_| NoMemory)?;
        self.register.room()?;
        note_routes(alloc, &mut self.prefixes, &op)?;
        note(&mut self.register, &op);
        self.ops.push_reserved(op);
        Ok(())
    }
}
