//! The work of a plan, frame by frame and item by item.
ghost use Rattle.std.specs.Prelude.{◌≡◌, ◌+◌, ◌++◌, ◌≤◌, ◌<◌, None, length, OnOk, IfOk};
ghost use Rattle.and_policy.specs.Frames.{fields};
ghost use Rattle.and_events.specs.Planned.{send_frame, send_frames, frames_of, sendable, nothing_planned, item_applied, item_steps, stepped};
ghost use Rattle.and_events.specs.Script.{item_fault, script_after};
ghost use Rattle.and_planner.specs.Planners.{planning_of, sender_of, frame_planned, frame_skipped, KeepsOrder};

use crate::state::ScriptState;
use and_capture::Taken;
use and_events::{Item, ItemFault, Items, Packet, Settings, SkipReason, Step};
use and_policy::{Entry, NoMemory, Tuple};
use and_wire::read_frame;
use std::alloc::Global;
use std::collections::VecDeque;

/// What the items up to now gave.
#[derive(Drop)]
pub struct Planner {
    /// The plain state that they lead to.
    pub state: ScriptState,
    /// The frames that are left.
    pub frames: VecDeque<Taken>,
    /// The number of the first of them.
    pub frame: u32,
    /// The steps.
    pub steps: Items<Step>,
    /// The packets.
    pub packets: Items<Packet>,
    /// The items that were refused.
    pub refused: Items<(u32, ItemFault)>,
    /// The frames that were skipped.
    pub skipped: Items<(u32, SkipReason)>,
}

/// Adds the step of an entry, and the review that follows a tick.
fn add_entry(steps: &mut Items<Step>, entry: Entry) -> Result<(), NoMemory>
    ensures { OnOk result (steps.new ≡ steps.old ++ item_steps (Item.Entry entry)) }
{
    steps.push(Step::Append(entry))?;
    match entry {
        Entry::Tick => steps.push(Step::Review),
        _ => Ok(()),
    }
}

/// Adds the steps of an item that fits, other than those of the frames that it sends.
fn add_steps(steps: &mut Items<Step>, item: &Item) -> Result<(), NoMemory>
    ensures { OnOk result (steps.new ≡ steps.old ++ item_steps item.now) }
{
    match *item {
        Item::Entry(entry) => add_entry(steps, entry),
        Item::Wait => steps.push(Step::Wait),
        Item::Send { .. } => Ok(()),
        Item::Blackout { vm, host } => steps.push(Step::Blackout { vm, host }),
        Item::Resume { vm } => steps.push(Step::Resume { vm }),
        Item::Hold { node, what } => steps.push(Step::Hold { node, what }),
        Item::Free { node, what } => steps.push(Step::Free { node, what }),
    }
}

impl Planner {
    /// Nothing is planned, for a system with these settings.
    pub fn make(alloc: Global, settings: Settings, frames: Vec<Taken>) -> Result<Planner, NoMemory>
        ensures { IfOk result (λ p. (planning_of p ≡ nothing_planned frames.items) × (p.state.settings ≡ settings)) }
    {
        Ok(Planner {
            state: ScriptState::make(alloc, settings)?,
            frames: VecDeque::from_vec(frames),
            frame: 0,
            steps: Items::new(alloc),
            packets: Items::new(alloc),
            refused: Items::new(alloc),
            skipped: Items::new(alloc),
        })
    }

    /// The number of a frame's source VM and the frame's tuple, or why it is skipped.
    fn sender(&self, frame: &[u8]) -> Result<(u32, Tuple), SkipReason>
        ensures { result ≡ sender_of (sendable self.now.state.script (fields frame.now)) }
    {
        let fields = match read_frame(frame) {
            Ok(fields) => fields,
            Err(skip) => return Err(SkipReason::Frame(skip)),
        };
        match self.state.source(fields.source_mac) {
            Ok(vm) => Ok((vm, fields.tuple)),
            Err(reason) => Err(reason),
        }
    }

    /// Injects a packet.
    fn inject(&mut self, vm: u32, tuple: Tuple, taken: Taken) -> Result<(), NoMemory>
        requires frame { self.old.frame < 100000 }
        requires packets { length self.old.packets ≤ self.old.frame }
        ensures planning { OnOk result (planning_of self.new ≡ frame_planned (planning_of self.old) taken (Ok (vm, tuple))) }
        ensures keeps { OnOk result (KeepsOrder self.old self.new) }
    {
        let packet = self.packets.len() as u32;
        self.steps.push(Step::Inject { packet })?;
        self.packets.push(Packet { vm, tuple, taken })?;
        self.frame += 1;
        Ok(())
    }

    /// Skips a frame.
    fn skip(&mut self, reason: SkipReason) -> Result<(), NoMemory>
        requires frame { self.old.frame < 100000 }
        requires packets { length self.old.packets ≤ self.old.frame }
        ensures planning { OnOk result (planning_of self.new ≡ frame_skipped (planning_of self.old) reason) }
        ensures keeps { OnOk result (KeepsOrder self.old self.new) }
    {
        self.skipped.push((self.frame, reason))?;
        self.frame += 1;
        Ok(())
    }

    /// Sends a frame, or skips it.
    fn send(&mut self, taken: Taken) -> Result<(), NoMemory>
        requires frame { self.old.frame < 100000 }
        requires packets { length self.old.packets ≤ self.old.frame }
        ensures planning { OnOk result (planning_of self.new ≡ frame_planned (planning_of self.old) taken (sender_of (sendable self.old.state.script (fields taken.frame)))) }
        ensures keeps { OnOk result (KeepsOrder self.old self.new) }
    {
        match self.sender(taken.frame.as_bytes()) {
            Ok((vm, tuple)) => self.inject(vm, tuple, taken),
            Err(reason) => self.skip(reason),
        }
    }

    /// Sends the next frame, where one is left.
    fn send_next(&mut self) -> Result<(), NoMemory>
        requires frame { self.old.frame + length self.old.frames.items ≤ 100000 }
        requires packets { length self.old.packets ≤ self.old.frame }
        ensures planning { OnOk result (planning_of self.new ≡ send_frame (planning_of self.old)) }
        ensures frame { OnOk result (self.new.frame + length self.new.frames.items ≤ 100000) }
        ensures packets { OnOk result (length self.new.packets ≤ self.new.frame) }
        ensures state { OnOk result (self.new.state ≡ self.old.state) }
    {
        match self.frames.pop_front() {
            Some(taken) => self.send(taken),
            None => Ok(()),
        }
    }

    /// Sends the next frames, so many.
    fn send_many(&mut self, count: u32) -> Result<(), NoMemory>
        requires frame { self.old.frame + length self.old.frames.items ≤ 100000 }
        requires packets { length self.old.packets ≤ self.old.frame }
        ensures planning { OnOk result (planning_of self.new ≡ send_frames count (planning_of self.old)) }
        ensures frame { OnOk result (self.new.frame + length self.new.frames.items ≤ 100000) }
        ensures packets { OnOk result (length self.new.packets ≤ self.new.frame) }
        ensures state { OnOk result (self.new.state ≡ self.old.state) }
    {
        let mut left = count;
        while left > 0 {
            self.send_next()?;
            left -= 1;
        }
        Ok(())
    }

    /// Sends the next frames, so many or all that are left; fewer where fewer are left.
    fn send_wanted(&mut self, wanted: Option<u32>) -> Result<(), NoMemory>
        requires frame { self.old.frame + length self.old.frames.items ≤ 100000 }
        requires packets { length self.old.packets ≤ self.old.frame }
        ensures planning { OnOk result (planning_of self.new ≡ frames_of (planning_of self.old) (Item.Send wanted)) }
        ensures frame { OnOk result (self.new.frame + length self.new.frames.items ≤ 100000) }
        ensures packets { OnOk result (length self.new.packets ≤ self.new.frame) }
        ensures state { OnOk result (self.new.state ≡ self.old.state) }
    {
        let left = self.frames.len() as u32;
        self.send_many(wanted.unwrap_or(left).min(left))
    }

    /// Sends the frames that an item sends: none, where it is no send.
    fn send_for(&mut self, item: &Item) -> Result<(), NoMemory>
        requires frame { self.old.frame + length self.old.frames.items ≤ 100000 }
        requires packets { length self.old.packets ≤ self.old.frame }
        ensures planning { OnOk result (planning_of self.new ≡ frames_of (planning_of self.old) item.now) }
        ensures frame { OnOk result (self.new.frame + length self.new.frames.items ≤ 100000) }
        ensures packets { OnOk result (length self.new.packets ≤ self.new.frame) }
        ensures state { OnOk result (self.new.state ≡ self.old.state) }
    {
        match *item {
            Item::Send { frames } => self.send_wanted(frames),
            _ => Ok(()),
        }
    }

    /// Takes an item that fits: its steps, and its frames.
    fn take(&mut self, alloc: Global, item: &Item) -> Result<(), NoMemory>
        requires fits { item_fault self.old.state.settings self.old.state.script item.now ≡ None }
        requires frame { self.old.frame + length self.old.frames.items ≤ 100000 }
        requires packets { length self.old.packets ≤ self.old.frame }
        ensures planning { OnOk result (planning_of self.new ≡ frames_of (stepped (record (planning_of self.old) { script = script_after self.old.state.script item.now }) (item_steps item.now)) item.now) }
        ensures frame { OnOk result (self.new.frame + length self.new.frames.items ≤ 100000) }
        ensures packets { OnOk result (length self.new.packets ≤ self.new.frame) }
        ensures settings { OnOk result (self.new.state.settings ≡ self.old.state.settings) }
    {
        self.state.apply(alloc, item)?;
        add_steps(&mut self.steps, item)?;
        self.send_for(item)
    }

    /// Applies the item of this number, or refuses it.
    pub fn apply(&mut self, alloc: Global, number: u32, item: &Item) -> Result<(), NoMemory>
        requires frame { self.old.frame + length self.old.frames.items ≤ 100000 }
        requires packets { length self.old.packets ≤ self.old.frame }
        ensures planning { OnOk result (planning_of self.new
            ≡ item_applied number (planning_of self.old) item.now (item_fault self.old.state.settings self.old.state.script item.now)) }
        ensures frame { OnOk result (self.new.frame + length self.new.frames.items ≤ 100000) }
        ensures packets { OnOk result (length self.new.packets ≤ self.new.frame) }
        ensures settings { OnOk result (self.new.state.settings ≡ self.old.state.settings) }
    {
        match self.state.check(item) {
            Ok(()) => self.take(alloc, item),
            Err(fault) => self.refused.push((number, fault)),
        }
    }
}
