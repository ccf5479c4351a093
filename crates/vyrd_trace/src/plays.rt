//! What each kind of step tells the seat that makes it.

ghost use Rattle.vyrd_base.specs.declared.history.Did.{Did};
ghost use Rattle.vyrd_trace.specs.Steps.{drew, looked, tried_again, tried_first, published};

use crate::record::Record;
use atomic_table::{Join, Play, Split};
use std::marker::{Brand, PhantomData};

/// What the next event does. A play has no arguments, so the caller of a draw picks this for the
/// proof.
pub trait Intent {
    ghost did: { Did };
}

// This value serves no draw: each call picks its own.
impl Intent for Brand {
    ghost use Rattle.vyrd_base.specs.declared.history.Did.TheVariants.{Took};

    ghost did = { Took 0 };
}

/// The number of an event is drawn.
pub struct Draws<J> {
    intent: PhantomData<J>,
}

impl<J: Intent> Play<(), Record> for Draws<J> {
    ghost then = { drew J.did };
}

/// The first look of a call.
pub struct Looks;

impl Play<(), Record> for Looks {
    ghost then = { looked };
}

/// A try to claim a cell that was looked at before in the same call.
pub struct TriesAgain;

impl Play<(), Record> for TriesAgain {
    ghost then = { tried_again };
}

/// A try to claim a cell that is the first look of its call.
pub struct TriesFirst;

impl Play<(), Record> for TriesFirst {
    ghost then = { tried_first };
}

/// The new word of a cell is written.
pub struct Publishes;

impl Play<(), Record> for Publishes {
    ghost then = { published };
}

/// A record for the next caller is made.
pub struct Deals;

impl Split<Record> for Deals {
    ghost use Rattle.vyrd_trace.specs.Records.{dealer, dealt};

    ghost left = { dealer };

    ghost right = { dealt };
}

/// One record gets both parties' lanes.
pub struct Gathers;

impl Join<Record> for Gathers {
    ghost use Rattle.vyrd_trace.specs.Records.{gathering, spent};

    ghost both = { gathering };

    ghost spent = { spent };
}
