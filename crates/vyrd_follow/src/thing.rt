//! What of a state an item tells, and an effect sets.

ghost use Rattle.std.specs.Prelude.{◌≡◌};
ghost use Rattle.vyrd_follow.specs.LastSteps.{told_by, set_by, is_same, does_set};

use vyrd_base::Effect;
use vyrd_witness::Item;

/// Something that a state has.
#[derive(Clone, Copy)]
pub(crate) enum Thing {
    /// The shown amount of a key.
    Shown(u64),
    /// The hidden amount of a key.
    Hidden(u64),
    /// A register.
    Register(usize),
    /// A list.
    List(usize),
    /// No one thing.
    Nothing,
}

impl Thing {
    /// Whether an effect sets it. All shown amounts are set at once if they are cleared.
    pub(crate) fn is_set_by(self, doing: Effect) -> bool
        ensures { result ≡ does_set self doing }
    {
        match (self, doing) {
            (Thing::Shown(_), Effect::EmptyShown) => true,
            _ => is_same(self, set_by(doing)),
        }
    }
}

/// What an item tells of the state before a commit.
pub(crate) fn told_by(item: Item) -> Thing
    ensures { result ≡ told_by item }
{
    match item {
        Item::Before { key, .. } => Thing::Shown(key),
        Item::Hidden { key, .. } => Thing::Hidden(key),
        Item::Register { number, .. } => Thing::Register(number),
        Item::Elements { number, .. } => Thing::List(number),
        _ => Thing::Nothing,
    }
}

/// What an effect sets, except for all shown amounts at once.
fn set_by(doing: Effect) -> Thing
    ensures { result ≡ set_by doing }
{
    match doing {
        Effect::SetShown(key, _) => Thing::Shown(key),
        Effect::SetHidden(key, _) => Thing::Hidden(key),
        Effect::SetRegister(number, _) => Thing::Register(number),
        Effect::PutLast(number, _) => Thing::List(number),
        Effect::PutFirst(number, _) => Thing::List(number),
        Effect::TakeFirst(number) => Thing::List(number),
        Effect::TakeLast(number) => Thing::List(number),
        Effect::Empty(number) => Thing::List(number),
        Effect::EmptyShown => Thing::Nothing,
    }
}

/// Whether two of them are one.
fn is_same(told: Thing, set: Thing) -> bool
    ensures { result ≡ is_same told set }
{
    match (told, set) {
        (Thing::Shown(a), Thing::Shown(b)) => a == b,
        (Thing::Hidden(a), Thing::Hidden(b)) => a == b,
        (Thing::Register(a), Thing::Register(b)) => a == b,
        (Thing::List(a), Thing::List(b)) => a == b,
        _ => false,
    }
}
