//! The journal of a board.
ghost use Rattle.std.specs.Prelude.{◌≡◌, ◌≤◌, ◌<◌, ◌+◌, ◌∷◌, ◌++◌, [], OnOk, map};
ghost use Rattle.board_core.specs.Journals.{event_of};

use board_work::Event;
use bz_base::Mem;
use std::alloc::Global;
use std::marker::Model;

/// The events of a board in their order. Contracts see also for how many more there is room.
#[derive(Drop)]
pub struct Journal {
    events: Vec<Event>,
}

impl Model for Journal {
    ghost use Rattle.std.specs.Prelude.{◌-◌, map, vec_len};
    ghost use Rattle.std.specs.Vec.{vec_capacity};
    ghost use Rattle.board_core.specs.Journals.{Log, event_of};

    ghost Value = { Log };

    ghost view = { λ j. record { events = map event_of j.events.items; room = vec_capacity j.events - vec_len j.events } };
}

impl Journal {
    pub fn new(alloc: Global) -> Journal
        ensures { result.events ≡ [] }
    {
        Journal {
            events: Vec::new(alloc),
        }
    }

    /// Makes room for so many events.
    pub fn make_room(&mut self, events: usize) -> Mem<()>
        ensures kept { self.new.events ≡ self.old.events }
        ensures room { OnOk result (events ≤ self.new.room) }
        ensures no_less { self.old.room ≤ self.new.room }
    {
        self.events.reserve(events)?;
        Ok(())
    }

    /// Writes an event down. Takes no memory.
    pub fn write(&mut self, event: Event)
        requires { 0 < self.old.room }
        ensures written { self.new.events ≡ self.old.events ++ event_of event ∷ [] }
        ensures room { self.old.room ≤ self.new.room + 1 }
    {
        let _ = self.events.push(event);
    }

    pub fn events(&self) -> &[Event]
        ensures { map event_of result.now ≡ self.now.events }
    {
        self.events.as_slice()
    }
}
