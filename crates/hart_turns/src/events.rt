//! The events of a turn, each written where it is kept.

ghost use Rattle.std.specs.Prelude.{◌≡◌, ◌<◌, ◌∷◌, ◌++◌, [], All, Bool, true, false, IfOk, length};
ghost use Rattle.hart_step.specs.Clauses.{CoreLeaves, step_by};
ghost use Rattle.hart_step.specs.Events.{IsEvent};
ghost use Rattle.hart_turns.specs.Events.{with_event};

use crate::machine::NoMemory;
use hart_step::{Answers, Core, Event};
use std::alloc::Global;
use std::marker::Model;

/// The events of a turn, in places that were made before it.
///
/// Contracts see it as an `EventsState`: the events, and how many places there are.
#[derive(Drop)]
pub(crate) struct EventList {
    places: Vec<Event>,
    count: usize,
}

impl Model for EventList {
    ghost use Rattle.std.specs.Prelude.{◌≤◌, length, take};
    ghost use Rattle.hart_turns.specs.Events.{EventsState};

    ghost Value = { EventsState };

    ghost view = { λ l. record { items = take l.count l.places.items; room = length l.places.items } };

    ghost invariant = { λ l. l.count ≤ length l.places.items };
}

impl EventList {
    /// No events, in so many places.
    pub(crate) fn new(alloc: Global, room: usize) -> Result<EventList, NoMemory>
        ensures empty { IfOk result (λ l. l.items ≡ []) }
        ensures room { IfOk result (λ l. l.room ≡ room) }
    {
        let places = vec![in alloc; Event::Host { word: 0 }; room]?;
        Ok(EventList { places, count: 0 })
    }

    /// The events, in order.
    pub(crate) fn as_slice(&self) -> &[Event]
        ensures { result.now ≡ self.now.items }
    {
        &self.places[..self.count]
    }

    /// Drops all events.
    pub(crate) fn clear(&mut self)
        ensures items { self.new.items ≡ [] }
        ensures room { self.new.room ≡ self.old.room }
    {
        self.count = 0;
    }

    /// Adds an event.
    pub(crate) fn push(&mut self, event: Event)
        requires { length self.old.items < self.old.room }
        ensures items { self.new.items ≡ self.old.items ++ event ∷ [] }
        ensures room { self.new.room ≡ self.old.room }
    {
        self.places[self.count] = event;
        self.count += 1;
    }

    /// Takes one step of hart `h` of a core, whose event is written in the next place.
    #[inline(always)]
    pub(crate) fn push_step<A: Answers>(&mut self, core: &mut Core, h: u8, answers: &mut A)
        requires room { length self.old.items < self.old.room }
        requires hart { h < length core.old.harts }
        requires ready { A.ready answers.old h }
        ensures items { self.new.items
            ≡ self.old.items ++ (step_by (A.says answers.old h) core.old h).event ∷ [] }
        ensures room { self.new.room ≡ self.old.room }
        ensures formed { All IsEvent self.old.items → All IsEvent self.new.items }
        ensures leaves { CoreLeaves A.after answers.old answers.new h core.old core.new
            (step_by (A.says answers.old h) core.old h).event
            (step_by (A.says answers.old h) core.old h) }
    {
        core.step_into(h, answers, &mut self.places[self.count]);
        self.count += 1;
    }
}

/// Whether the events of a turn are kept.
pub(crate) trait Keeps {
    /// They are.
    ghost keeps: { Bool };

    /// Takes one step of hart `h` of a core, and keeps its event or not.
    fn step<A: Answers>(events: &mut EventList, core: &mut Core, h: u8, answers: &mut A)
        requires room { length events.old.items < events.old.room }
        requires hart { h < length core.old.harts }
        requires ready { A.ready answers.old h }
        ensures items { events.new.items
            ≡ with_event keeps events.old.items (step_by (A.says answers.old h) core.old h).event }
        ensures room { events.new.room ≡ events.old.room }
        ensures formed { All IsEvent events.old.items → All IsEvent events.new.items }
        ensures leaves { CoreLeaves A.after answers.old answers.new h core.old core.new
            (step_by (A.says answers.old h) core.old h).event
            (step_by (A.says answers.old h) core.old h) };

    /// Keeps an event or not.
    fn push(events: &mut EventList, event: Event)
        requires room { length events.old.items < events.old.room }
        ensures items { events.new.items ≡ with_event keeps events.old.items event }
        ensures room { events.new.room ≡ events.old.room }
        ensures formed { All IsEvent events.old.items → IsEvent event → All IsEvent events.new.items };
}

/// Each event is kept.
pub(crate) struct Kept;

impl Keeps for Kept {
    ghost keeps = { true };

    #[inline(always)]
    fn step<A: Answers>(events: &mut EventList, core: &mut Core, h: u8, answers: &mut A) {
        events.push_step(core, h, answers);
    }

    fn push(events: &mut EventList, event: Event) {
        events.push(event);
    }
}

/// No event is kept.
pub(crate) struct Dropped;

impl Keeps for Dropped {
    ghost keeps = { false };

    #[inline(always)]
    fn step<A: Answers>(_events: &mut EventList, core: &mut Core, h: u8, answers: &mut A) {
        core.step_unseen(h, answers);
    }

    fn push(_events: &mut EventList, _event: Event) {}
}
