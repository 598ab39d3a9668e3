//! The first hairpin to end is the one that the controller may end in a state whose hairpins these are.
ghost use Rattle.std.specs.Prelude.{ℕ, List};
ghost use Rattle.and_events.specs.declared.plan.Plan.{Plan};
ghost use Rattle.and_events.specs.Legal.{CanUnpin, IsRipe};
ghost use Rattle.and_events.specs.State.{State};
ghost use Rattle.and_pins.specs.declared.pin.Pin.{Pin};
ghost use Rattle.and_pins.specs.Pinned.{AreOf, IsFirst, NoneIsRipe};

/// The first to end is the one that the controller may end.
pub fn the_first_can_end()
    ensures { (plan : Plan) (s : State) (pins : List Pin) (least host vm : ℕ) → AreOf pins least plan s → IsFirst pins least host vm → CanUnpin plan s host vm }
{}

/// Where none is the first to end, the controller may end none.
pub fn nothing_can_end()
    ensures { (plan : Plan) (s : State) (pins : List Pin) (least host vm : ℕ) → AreOf pins least plan s → NoneIsRipe pins least → IsRipe plan s host vm → ⊥ }
{}
