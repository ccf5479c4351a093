//! The ascent: a new node gets an entry on the next level, in a round for each level.

ghost use Rattle.std.specs.Prelude.{◌≡◌, ◌<◌};
ghost use Rattle.vyrd_memory.specs.Scripts.{next_act, after_answer};
ghost use Rattle.vyrd_tree.specs.Rests.{climbing_rest, rest_at};

use crate::cells::{root_cell, root_lock};
use crate::node::{Node, Word};
use crate::place::{After, Climbing, Getting, Lock, Need, Place};
use crate::task::Task;
use crate::visit::Ascent;
use vyrd_base::Header;
use vyrd_memory::Act;

impl Climbing {
    /// What comes next of a round.
    pub(crate) fn wants(self, header: &Header) -> Act
        ensures { (task : Task) (a : Ascent)
            → result ≡ next_act (climbing_rest header.now task a self) }
    {
        match self {
            Climbing::Lock => Act::Take(root_lock(header)),
            Climbing::LoadRoot => Act::Load(root_cell(header)),
            Climbing::LoadLevel(root) => Act::Load(root.cell(Word::Level)),
        }
    }
}

impl Task {
    /// The place after what came next of a round. A root of the round's level, or lower, gets a new
    /// root above it.
    pub(crate) fn after_climbing(
        self,
        header: &Header,
        ascent: Ascent,
        place: Climbing,
        answer: u64,
    ) -> Place
        ensures { rest_at header.now self result
            ≡ after_answer (climbing_rest header.now self ascent place) answer }
    {
        match place {
            Climbing::Lock => Place::Climb(ascent, Climbing::LoadRoot),
            Climbing::LoadRoot => match Node::numbered(header, answer) {
                Some(root) => Place::Climb(ascent, Climbing::LoadLevel(root)),
                None => Place::Unlock(Lock::Root, After::Return(1)),
            },
            Climbing::LoadLevel(root) => {
                if answer <= u64::from(ascent.level) {
                    Place::Unused(Need::Root(ascent, root), Getting::Lock)
                } else {
                    Place::Unlock(Lock::Root, After::Walk(ascent, root))
                }
            }
        }
    }
}
