//! What a list of operations leaves, and the lists of operations by which it grows.
ghost use Rattle.std.specs.Prelude.{◌≡◌, ◌<◌, ◌^◌, ◌-◌, ◌++◌, ◌∷◌, [], length, OnOk, OnErr, IfOk};

use crate::entry::Op;
use crate::memory::NoMemory;
use std::alloc::Global;
use std::marker::Model;

/// Operations that are applied together. Contracts see it as their list.
#[derive(Drop)]
pub struct Batch {
    ops: Vec<Op>,
}

impl Model for Batch {
    ghost use Rattle.std.specs.Prelude.{List};
    ghost use Rattle.and_policy.specs.declared.entry.Op.{Op};

    ghost Value = { List Op };

    ghost view = { λ b. b.ops.items };
}

impl Batch {
    /// A batch of these operations, in their order.
    ///
    /// # Errors
    ///
    /// Where memory is wanting.
    pub fn make(alloc: Global, ops: &[Op]) -> Result<Batch, NoMemory>
        ensures { IfOk result (λ b. b ≡ ops.now) }
    {
        let ops = ops.to_vec(alloc).map_err(|_| NoMemory)?;
        Ok(Batch { ops })
    }

    /// The operations.
    pub fn ops(&self) -> &[Op]
        ensures { result.now ≡ self.now }
    {
        &self.ops
    }
}

/// The tables of a node: what the operations of a programme leave.
///
/// Contracts see the list of operations that were applied, the oldest first, and the `origin`, a pair of numbers with
/// which the tables were made: the host and the number of gateways, or 0 and 0 where they are a gateway's.
pub trait Tables: Drop {
    ghost use Rattle.std.specs.Prelude.{ℕ, List};
    ghost use Rattle.and_policy.specs.declared.entry.Op.{Op};

    ghost ops: { Self → List Op };

    ghost origin: { Self → ℕ × ℕ };

    /// How many operations were applied.
    fn at(&self) -> u32
        ensures { result ≡ length (ops self.now) };

    /// The operations that were applied.
    fn ops(&self) -> &[Op]
        ensures { result.now ≡ ops self.now };

    /// Applies one operation, whatever it is.
    ///
    /// # Errors
    ///
    /// Where memory is wanting; the operations are then those of before.
    fn apply(&mut self, alloc: Global, op: Op) -> Result<(), NoMemory>
        requires { length (ops self.old) < 2 ^ 32 - 1 }
        ensures ok { OnOk result (ops self.new ≡ ops self.old ++ op ∷ []) }
        ensures err { OnErr result (ops self.new ≡ ops self.old) }
        ensures origin { origin self.new ≡ origin self.old };
}
