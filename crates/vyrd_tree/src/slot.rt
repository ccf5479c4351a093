//! The slots of a node, each of which holds an entry.

ghost use Rattle.std.specs.Prelude.{◌≡◌, ◌<◌, ◌≤◌, MatchOption};

/// A slot of a node: the place of an entry, and how many first entries the node has.
#[derive(Clone, Copy)]
pub(crate) struct Slot {
    pub(crate) place: u32,
    pub(crate) of: u32,
    ghost within: { place < of },
    ghost few: { of ≤ 4 },
}

impl Slot {
    /// The slot at a place, given that there are this many entries.
    pub(crate) fn new(place: u32, of: u32) -> Option<Slot>
        requires { of ≤ 4 }
        ensures { MatchOption result (of ≤ place) (λ slot. (slot.place ≡ place) × (slot.of ≡ of)) }
    {
        if place < of {
            Some(Slot { place, of })
        } else {
            None
        }
    }
}
