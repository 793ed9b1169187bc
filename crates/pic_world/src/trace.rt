//! Traces of events.

ghost use Rattle.std.specs.Prelude.{◌≡◌, ◌<◌, ◌≤◌, ◌+◌, ◌-◌, ◌++◌, [], ◌∷◌, length, slice_index_or, OnOk, OnErr};
ghost use Rattle.pic_world.specs.TraceRoom.{Recorded};

use crate::Event;
use std::alloc::{AllocError, Global};
use std::marker::Model;

/// A list of events, and room for more of them that takes no memory.
#[derive(Drop)]
pub struct Trace {
    events: Vec<Event>,
    room: usize,
}

impl Model for Trace {
    ghost use Rattle.std.specs.Prelude.{◌+◌, ◌≤◌};
    ghost use Rattle.std.specs.Vec.{vec_len, vec_capacity};
    ghost use Rattle.pic_world.specs.TraceRoom.{Recorded};

    ghost Value = { Recorded };

    ghost view = { λ t. record { events = t.events.items; room = t.room } };

    ghost invariant = { λ t. vec_len t.events + t.room ≤ vec_capacity t.events };
}

impl Trace {
    /// No events and no room.
    pub fn new(alloc: Global) -> Trace
        ensures { result ≡ record { events = []; room = 0 } }
    {
        Trace {
            events: Vec::new(alloc),
            room: 0,
        }
    }

    /// Makes room for so many further events at least. Without memory the room stays as it was.
    pub fn reserve(&mut self, n: usize) -> Result<(), AllocError>
        ensures events { self.new.events ≡ self.old.events }
        ensures room { OnOk result (n ≤ self.new.room) }
        ensures kept { self.old.room ≤ self.new.room }
        ensures refused { OnErr result (self.new ≡ self.old) }
    {
        if self.room < n {
            self.events.try_reserve(n)?;
            self.room = n;
        }
        Ok(())
    }

    /// Appends an event. There is room for one.
    pub fn push(&mut self, e: Event)
        requires { 0 < self.old.room }
        ensures events { self.new.events ≡ self.old.events ++ e ∷ [] }
        ensures room { self.new.room + 1 ≡ self.old.room }
    {
        let _ = self.events.push(e);
        self.room -= 1;
    }

    /// How many events there are.
    pub fn len(&self) -> usize
        ensures { result ≡ length self.now.events }
    {
        self.events.len()
    }

    /// The event of this number, counted from 0.
    pub fn get(&self, i: usize) -> Event
        requires { i < length self.now.events }
        ensures { result ≡ slice_index_or self.now.events i result }
    {
        self.events[i]
    }
}
