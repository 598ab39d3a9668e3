//! What a book tells of the state after its lines.
ghost use Rattle.std.specs.Prelude.{◌≡◌, ◌<◌, ◌↔◌, ℕ, List, length, IsTrue, IfSome, IfNone, slice_get};
ghost use Rattle.and_events.specs.declared.event.Actor.{Actor};
ghost use Rattle.and_events.specs.Legal.{CanUnpin, Enabled, IsRipe};
ghost use Rattle.and_events.specs.Ordered.{IsFirst};
ghost use Rattle.and_events.specs.Places.{IsActor, IsNode};
ghost use Rattle.and_events.specs.State.{programme_of, announced_of, installed_of, carried_at};
ghost use Rattle.and_book.specs.Views.{AreEnabled, NoneEnabled, now};

use crate::book::Book;
use crate::enabling::{Parts, can_act, count_acting, nth_acting};
use and_events::{Actor, Carried, Node, Step, actor_at, node_place};
use and_policy::Op;

impl Book {
    /// The step that is due.
    pub fn next_step(&self) -> Option<Step>
        ensures { result ≡ slice_get self.now.plan.steps (now self.now).next }
    {
        self.plan.steps.get(self.next as usize).copied()
    }

    /// What is known of the packet on its way.
    pub fn carried(&self, packet: u32) -> Carried
        requires { packet < length self.now.plan.packets }
        ensures { result ≡ carried_at (now self.now) packet }
    {
        self.traffic.carried(packet)
    }

    /// Whether the actor is enabled: a condition of its events holds, or it has a packet in hand. It takes the same few steps
    /// however long the run is.
    pub fn enabled(&self, actor: Actor) -> bool
        ensures { IsTrue result ↔ Enabled self.now.plan (now self.now) actor }
    {
        let parts = Parts {
            packets: &self.plan.packets,
            progress: &self.progress,
            pins: &self.pins,
            traffic: &self.traffic,
        };
        can_act(&parts, self.next_step(), actor)
    }

    /// How many actors are enabled. It takes a few steps, however long the run is.
    pub fn enabled_count(&self) -> u32
        ensures { (actors : List Actor) × AreEnabled self.now.plan (now self.now) actors × (result ≡ length actors) }
    {
        let controller = self.enabled(Actor::Controller);
        let driver = self.enabled(Actor::Driver);
        count_acting(&self.progress, &self.traffic, controller, driver)
    }

    /// The enabled actor before which `k` others come in the order of their numbers; none where not so many are enabled. It
    /// takes a few steps, however long the run is.
    pub fn enabled_at(&self, k: u32) -> Option<Actor>
        ensures { (actors : List Actor) × AreEnabled self.now.plan (now self.now) actors × (result ≡ slice_get actors k) }
    {
        let controller = self.enabled(Actor::Controller);
        let driver = self.enabled(Actor::Driver);
        if k < count_acting(&self.progress, &self.traffic, controller, driver) {
            let number = nth_acting(&self.progress, &self.traffic, controller, driver, k);
            Some(actor_at(self.plan.settings, number))
        } else {
            None
        }
    }

    /// Law, at no cost when it runs: there is one list of the enabled actors in the order of their numbers.
    pub fn enabled_once(&self)
        ensures { (xs ys : List Actor) → AreEnabled self.now.plan (now self.now) xs → AreEnabled self.now.plan (now self.now) ys → xs ≡ ys }
    {
        let _ = &self.next;
    }

    /// The enabled actor with the smallest number. It takes a few steps, however long the run is.
    pub fn first_enabled(&self) -> Option<Actor>
        ensures actor { IfSome result (λ a. IsActor self.now.plan.settings a) }
        ensures enabled { IfSome result (λ a. Enabled self.now.plan (now self.now) a) }
        ensures first { IfSome result (λ a. IsFirst self.now.plan (now self.now) a) }
        ensures none { IfNone result (NoneEnabled self.now.plan (now self.now)) }
    {
        self.enabled_at(0)
    }

    /// The hairpin that is the next to end, as its host and its VM; none where none may end. It takes a few steps.
    pub fn next_hairpin(&self) -> Option<(u32, u32)>
        ensures some { IfSome result (λ p. CanUnpin self.now.plan (now self.now) p.0 p.1) }
        ensures none { IfNone result ((host vm : ℕ) → IsRipe self.now.plan (now self.now) host vm → ⊥) }
    {
        // The hairpins go by this number, and its clause says what every node has installed.
        let _ = self.progress.least();
        self.pins.first()
    }

    /// The node's programme.
    pub fn programme(&self, node: Node) -> &[Op]
        requires { IsNode self.now.plan.settings node }
        ensures { result.now ≡ programme_of self.now.plan (now self.now) node }
    {
        let place = node_place(self.plan.settings, node);
        self.progress.programme(place)
    }

    /// How much of it was announced last.
    pub fn announced(&self, node: Node) -> u32
        requires { IsNode self.now.plan.settings node }
        ensures { result ≡ announced_of self.now.plan (now self.now) node }
    {
        let place = node_place(self.plan.settings, node);
        self.progress.announced(place)
    }

    /// How much of it is installed.
    pub fn installed(&self, node: Node) -> u32
        requires { IsNode self.now.plan.settings node }
        ensures { result ≡ installed_of self.now.plan (now self.now) node }
    {
        let place = node_place(self.plan.settings, node);
        self.progress.installed(place)
    }
}
