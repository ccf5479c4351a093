//! What waits to be judged.

ghost use Rattle.std.specs.Prelude.{◌≡◌, ◌<◌};
ghost use Rattle.vyrd_judge.specs.WaitingView.{is_unreturned};

use std::marker::Model;
use vyrd_base::{Args, Method};

/// What an entry that waits does.
#[derive(Clone, Copy)]
pub(crate) enum Event {
    /// An execution begins that may return without a commit, as an observer's does.
    Begins(Method, Args),
    /// An execution commits. Its reply is `None` if it hasn't returned yet.
    Commits(Method, Args, Option<u64>),
    /// An execution without a commit returns with this reply.
    Returns(u64),
}

/// An entry that waits until all commits before it are judged. It takes 32 bytes of memory: what
/// waits is what grows while an execution stays open and others commit.
#[derive(Clone, Copy)]
pub(crate) struct Waiting {
    position: u64,
    held: Held,
}

/// Whose entry it is and what it does, laid out for size: a caller has one byte, and a commit that
/// has no reply yet is a variant of its own.
#[derive(Clone, Copy)]
enum Held {
    /// The call of an execution that may return without a commit.
    Call(u8, Method, Args),
    /// The commit of an execution that hasn't returned yet.
    Unreturned(u8, Method, Args),
    /// The commit of an execution that has returned with this reply.
    Returned(u8, Method, Args, u64),
    /// The return of an execution without a commit.
    Return(u8, u64),
}

const _: () = prove!(size_of::<Waiting>() == 32);

impl Model for Waiting {
    ghost use Rattle.vyrd_judge.specs.WaitingView.{WaitingView, caller_in, event_in, held_as};
    ghost use Rattle.vyrd_judge.specs.WaitingView.{held_again};

    ghost Value = { WaitingView };

    ghost view = { λ w. record {
      caller = caller_in w.held;
      position = w.position;
      event = event_in w.held;
    } };

    ghost inverse = { λ v. record { position = v.position; held = held_as v.caller v.event } };

    ghost inverse_ok = { λ w h i. record { position = w.position; held = held_again w.held i } };
}

impl Waiting {
    /// A caller's entry at this position, which does this.
    #[inline]
    pub fn new(caller: u32, position: u64, event: Event) -> Waiting
        requires { caller < 256 }
        ensures { result ≡ record { caller = caller; position = position; event = event } }
    {
        let caller = caller as u8;
        let held = match event {
            Event::Begins(method, args) => Held::Call(caller, method, args),
            Event::Commits(method, args, reply) => match reply {
                Some(reply) => Held::Returned(caller, method, args, reply),
                None => Held::Unreturned(caller, method, args),
            },
            Event::Returns(reply) => Held::Return(caller, reply),
        };
        Waiting { position, held }
    }

    /// Whose entry it is.
    #[inline]
    pub fn caller(self) -> u32
        ensures is { result ≡ self.caller }
        ensures few { result < 256 }
    {
        let caller = match self.held {
            Held::Call(caller, _, _) => caller,
            Held::Unreturned(caller, _, _) => caller,
            Held::Returned(caller, _, _, _) => caller,
            Held::Return(caller, _) => caller,
        };
        u32::from(caller)
    }

    /// Its position in the log, counted from 0.
    #[inline]
    pub fn position(self) -> u64
        ensures { result ≡ self.position }
    {
        self.position
    }

    /// Whether it is the commit of an execution that hasn't returned yet.
    #[inline]
    pub fn awaits_return(self) -> bool
        ensures { result ≡ is_unreturned self.event }
    {
        matches!(self.held, Held::Unreturned(_, _, _))
    }

    /// What it does.
    #[inline]
    pub fn event(self) -> Event
        ensures { result ≡ self.event }
    {
        match self.held {
            Held::Call(_, method, args) => Event::Begins(method, args),
            Held::Unreturned(_, method, args) => Event::Commits(method, args, None),
            Held::Returned(_, method, args, reply) => Event::Commits(method, args, Some(reply)),
            Held::Return(_, reply) => Event::Returns(reply),
        }
    }
}
