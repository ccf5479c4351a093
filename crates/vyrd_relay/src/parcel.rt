//! Events that go through the relay at once.

ghost use Rattle.std.specs.Prelude.{◌≡◌, ◌≤◌, length, take};

use std::alloc::{AllocError, Global};
use std::marker::Model;
use vyrd_base::{Did, Stamped};

/// How many events a parcel holds at most.
pub const PARCEL_ROOM: usize = 32;

/// What a room holds before its first events.
const BLANK: Stamped = Stamped {
    number: 0,
    caller: 0,
    did: Did::Took(0),
};

/// Room for the events of a parcel. It stands on the heap, so that a queue moves no events.
pub(crate) type Room = Box<[Stamped; PARCEL_ROOM]>;

/// Takes memory for one room.
pub(crate) fn make_room(alloc: Global) -> Result<Room, AllocError> {
    let room = Box::new(alloc, [BLANK; PARCEL_ROOM])?;
    Ok(room)
}

/// A few events, in their order: 1 to 32. A push and a pop cost the same for a parcel of any number
/// of them, and it is these that threads slow one another down with.
#[derive(Drop)]
pub struct Parcel {
    count: usize,
    room: Room,
}

impl Model for Parcel {
    ghost use Rattle.std.specs.Prelude.{◌≤◌, List, take};
    ghost use Rattle.vyrd_base.specs.declared.history.Stamped.{Stamped};

    ghost Value = { List Stamped };

    ghost view = { λ p. take p.count p.room.value };

    ghost invariant = { λ p. p.count ≤ 32 };
}

impl Parcel {
    /// The first of these events, as many as a parcel holds, in that room.
    pub(crate) fn fill(room: Room, events: &[Stamped]) -> Parcel
        ensures { result ≡ take 32 events.now }
    {
        let mut room = room;
        let count = put_first(&mut room, events);
        Parcel { count, room }
    }

    /// The room, for other events.
    pub(crate) fn into_room(self) -> Room {
        let Parcel { room, .. } = self;
        room
    }

    /// The events.
    pub fn events(&self) -> &[Stamped]
        ensures { result.now ≡ self.now }
    {
        &self.room[..self.count]
    }

    /// How many events these are.
    pub fn len(&self) -> usize
        ensures { result ≡ length self.now }
    {
        self.events().len()
    }
}

/// Puts the first of these events at the front, as many as there is room for. It answers how many.
fn put_first(room: &mut [Stamped; PARCEL_ROOM], events: &[Stamped]) -> usize
    ensures count { result ≤ 32 }
    ensures first { take result room.new ≡ take 32 events.now }
{
    let count = events.len().min(PARCEL_ROOM);
    room[..count].copy_from_slice(&events[..count]);
    count
}
