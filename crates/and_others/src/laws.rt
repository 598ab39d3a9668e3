//! The laws of what lasts.
ghost use Rattle.std.specs.Prelude.{◌≡◌, ℕ, ◌≤◌, List, ◌∷◌, Some, length, take};
ghost use Rattle.and_events.specs.declared.event.Actor.{Actor};
ghost use Rattle.and_events.specs.declared.event.Actor.TheVariants.{Worker};
ghost use Rattle.and_events.specs.declared.event.Event.{Event};
ghost use Rattle.and_events.specs.declared.event.Event.TheVariants.{Announce, Installed};
ghost use Rattle.and_events.specs.declared.event.Held.{Held};
ghost use Rattle.and_events.specs.declared.event.Node.{Node};
ghost use Rattle.and_events.specs.declared.plan.Plan.{Plan};
ghost use Rattle.and_events.specs.Complete.{IsComplete};
ghost use Rattle.and_events.specs.Flow.{hand_at};
ghost use Rattle.and_events.specs.Ordered.{IsInPlainOrder};
ghost use Rattle.and_events.specs.Places.{hand_place, actor_of, IsActor, IsNode, Handles};
ghost use Rattle.and_events.specs.Run.{Run};
ghost use Rattle.and_events.specs.Sound.{IsSound};
ghost use Rattle.and_events.specs.State.{state, carried_at, programme_of, announced_of, installed_of};
ghost use Rattle.and_others.specs.Ways.{cache_after, Ways};

/// What an actor has in hand, and what that packet carries, is as it was after an event of another.
#[tactic(auto, using(crate::proofs::Lasting::hand_lasts, crate::proofs::Lasting::carried_lasts))]
pub fn hands_last()
    ensures hand { (plan : Plan) (h : List Event) (e : Event) (b : Actor) → IsSound plan → Run plan (e ∷ h) → IsActor plan.settings b → Handles b
        → (actor_of e ≡ b → ⊥)
        → hand_at (state plan (e ∷ h)).flow.hands (hand_place plan.settings b) ≡ hand_at (state plan h).flow.hands (hand_place plan.settings b) }
    ensures carried { (plan : Plan) (h : List Event) (e : Event) (b : Actor) (x : Held) → IsSound plan → Run plan (e ∷ h)
        → IsActor plan.settings b → Handles b → (actor_of e ≡ b → ⊥)
        → hand_at (state plan h).flow.hands (hand_place plan.settings b) ≡ Some x
        → carried_at (state plan (e ∷ h)) x.packet ≡ carried_at (state plan h) x.packet }
{}

/// What was taken from the front of a node's programme is still its front after one more event.
#[tactic(auto, using(crate::proofs::Growing::taken_lasts))]
pub fn programmes_grow_at_their_ends()
    ensures { (plan : Plan) (h : List Event) (e : Event) (node : Node) → IsSound plan → Run plan (e ∷ h) → IsNode plan.settings node
        → (n : ℕ) → n ≤ length (programme_of plan (state plan h) node)
        → take n (programme_of plan (state plan (e ∷ h)) node) ≡ take n (programme_of plan (state plan h) node) }
{}

/// What is announced at a node is changed by an announcement there alone, and what is installed by an install there alone.
#[tactic(auto, using(crate::proofs::Growing::announced_lasts, crate::proofs::Growing::installed_lasts))]
pub fn numbers_last()
    ensures announced { (plan : Plan) (h : List Event) (e : Event) (node : Node) → IsSound plan → Run plan (e ∷ h)
        → IsNode plan.settings node → ((upto : ℕ) → e ≡ Announce node upto → ⊥)
        → announced_of plan (state plan (e ∷ h)) node ≡ announced_of plan (state plan h) node }
    ensures installed { (plan : Plan) (h : List Event) (e : Event) (node : Node) → IsSound plan → Run plan (e ∷ h)
        → IsNode plan.settings node → ((upto : ℕ) → e ≡ Installed node upto → ⊥)
        → installed_of plan (state plan (e ∷ h)) node ≡ installed_of plan (state plan h) node }
{}

/// A host worker's flow cache is as it was after an event of another actor.
#[tactic(auto, using(crate::proofs::Caching::cache_lasts))]
pub fn caches_last()
    ensures { (plan : Plan) (h : List Event) (e : Event) (host index : ℕ) → (actor_of e ≡ Worker host index → ⊥)
        → cache_after plan (e ∷ h) host index ≡ cache_after plan h host index }
{}

/// A sound plan has at most one complete run in the plain order in which each host worker goes the way that its cache gives.
#[tactic(auto, using(crate::proofs::Once::one_way_run))]
pub fn runs_by_caches_are_one()
    ensures { (plan : Plan) (h k : List Event) → IsSound plan → Run plan h → IsComplete plan h → IsInPlainOrder plan h → Ways plan h
        → Run plan k → IsComplete plan k → IsInPlainOrder plan k → Ways plan k → k ≡ h }
{}
