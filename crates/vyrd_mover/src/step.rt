//! What an event is to the blocks of its history.

ghost use Rattle.std.specs.Prelude.{◌≡◌, ◌<◌, ◌^◌};
ghost use Rattle.vyrd_mover.specs.Steps.{role_of, step_of, role_number, code_of, step_coded};
ghost use Rattle.vyrd_mover.specs.Steps.{numbered_role, IsShort};

use vyrd_base::{Did, Kind, Stamped};

/// How many callers the code of a step tells apart. A header has no more.
const CALLERS: u32 = 256;

/// What an event is to its caller's block.
#[derive(Clone, Copy)]
pub(crate) enum Role {
    /// It opens the block.
    Opens,
    /// It ends the block.
    Ends,
    /// It is another mark.
    Marks,
    /// It takes a lock.
    Takes,
    /// It gives a lock back.
    Gives,
    /// It reads or writes this plain cell.
    Accesses(u32),
}

impl Role {
    /// What the deed of an event is.
    pub fn of(did: Did) -> Role
        ensures { result ≡ role_of did }
    {
        match did {
            Did::Marked(Kind::BlockOpen) => Role::Opens,
            Did::Marked(Kind::BlockClose | Kind::BlockCommit) => Role::Ends,
            Did::Marked(_) => Role::Marks,
            Did::Took(_) => Role::Takes,
            Did::Gave(_) => Role::Gives,
            Did::Read(cell, _) | Did::Wrote(cell, _) => Role::Accesses(cell),
        }
    }

    /// The number of the role. A cell is below 2^24.
    fn number(self) -> u32
        requires { IsShort self }
        ensures number { result ≡ role_number self }
        ensures short { result < 2 ^ 23 }
    {
        match self {
            Role::Opens => 0,
            Role::Ends => 1,
            Role::Marks => 2,
            Role::Takes => 3,
            Role::Gives => 4,
            Role::Accesses(cell) => cell + 5,
        }
    }

    /// The role with this number.
    fn numbered(number: u32) -> Role
        ensures { result ≡ numbered_role number }
    {
        match number {
            0 => Role::Opens,
            1 => Role::Ends,
            2 => Role::Marks,
            3 => Role::Takes,
            4 => Role::Gives,
            _ => Role::Accesses(number - 5),
        }
    }
}

/// An event as far as it matters for the blocks: neither values nor the numbers of locks do.
#[derive(Clone, Copy)]
pub(crate) struct Step {
    /// Whose event it is.
    pub caller: u32,
    /// What it is to the caller's block.
    pub role: Role,
}

impl Step {
    /// The step that an event is.
    pub fn of(event: &Stamped) -> Step
        ensures { result ≡ step_of event.now }
    {
        Step {
            caller: event.caller,
            role: Role::of(event.did),
        }
    }

    /// The step in one number. Its caller is below 256, and its cell below 2^22.
    pub fn code(self) -> u32
        requires caller { self.caller < 256 }
        requires cell { IsShort self.role }
        ensures { result ≡ code_of self }
    {
        self.caller + CALLERS * self.role.number()
    }

    /// The step with this code.
    pub fn coded(code: u32) -> Step
        ensures { result ≡ step_coded code }
    {
        Step {
            caller: code % CALLERS,
            role: Role::numbered(code / CALLERS),
        }
    }
}
