//! The parts of a specification's words.

ghost use Rattle.std.specs.Prelude.{◌≡◌, ◌/◌, ◌≤◌, IfOk};
ghost use Rattle.std.specs.Arc.{arc_value};
ghost use Rattle.vyrd_base.specs.Own.Reader.{written_in};
ghost use Rattle.vyrd_base.specs.Own.Steps.{blank};
ghost use Rattle.vyrd_own.specs.Layout.{written};
ghost use Rattle.vyrd_own_spec.specs.Parts.{width_of, AreFew};

use crate::specification::Specification;
use std::alloc::{AllocError, Global};
use std::sync::Arc;
use vyrd_base::Header;
use vyrd_own::{Program, StateOf, part_pairs};
use vyrd_view::Decode;

/// How words are decoded by a specification of the user's own. If it has no part, each word is a
/// part that gives nothing.
#[derive(Drop)]
pub struct OwnParts {
    header: Header,
    specification: Arc<Specification>,
    nothing: StateOf,
    width: usize,
    places: usize,
    parts: usize,
    ghost blank: { nothing ≡ blank },
    ghost width_is: { width ≡ width_of (written_in (arc_value specification)) },
    ghost few: { AreFew (written_in (arc_value specification)) width places parts },
}

impl OwnParts {
    /// The parts of this many words, of which the specification tells what they show.
    pub fn new(
        alloc: Global,
        header: Header,
        specification: Arc<Specification>,
    ) -> Result<OwnParts, AllocError>
        ensures header { IfOk result (λ d. d.header ≡ header) }
        ensures lines { IfOk result
            (λ d. arc_value d.specification ≡ arc_value specification) }
        ensures parts { IfOk result (λ d. d.parts ≡ header.size / d.width) }
    {
        let program = specification.program();
        let width = width(program);
        let places = program.shows.len().max(1);
        let parts = header.size() as usize / width;
        Ok(OwnParts {
            header,
            nothing: StateOf::blank(alloc)?,
            width,
            places,
            parts,
            specification,
        })
    }
}

/// How many words a part has.
fn width(program: &Program) -> usize
    ensures is { result ≡ width_of (written program.now) }
    ensures some { 1 ≤ result }
{
    if program.words == 0 { 1 } else { program.words }
}

impl Decode for OwnParts {
    ghost use Rattle.std.specs.Prelude.{refl};
    ghost use Rattle.vyrd_base.specs.Rules.{own};
    ghost use Rattle.vyrd_view.specs.Known.{by_rules};
    ghost use Rattle.vyrd_own_spec.specs.Parts.{own_gives};
    ghost use Rattle.vyrd_own_spec.specs.Laws.Parts.{own_narrow, own_quiet, own_shown};

    ghost width = { λ d. d.width };

    ghost places = { λ d. d.places };

    ghost most_places = { λ shows. 4 };

    ghost parts = { λ d. d.parts };

    ghost gives = { λ d. own_gives (written_in (arc_value d.specification)) };

    ghost shows = { λ d. by_rules (own d.header (arc_value d.specification)) };

    ghost narrow = { λ d. own_narrow d.few };

    ghost bounded = { λ d. d.few.few };

    ghost few = { λ d. d.few.parts_few };

    ghost quiet = { λ d part j. own_quiet (written_in (arc_value d.specification)) d.width part j };

    ghost shown = { λ d words count.
        own_shown (written_in (arc_value d.specification)) words d.width_is d.few count };

    #[inline(always)]
    fn width(&self) -> usize {
        self.width
    }

    #[inline(always)]
    fn places(&self) -> usize {
        self.places
    }

    #[inline(always)]
    fn parts(&self) -> usize {
        self.parts
    }

    #[inline(always)]
    fn decode(&self, part: usize, words: &[u64]) -> [(u64, u64); 4] {
        let program = self.specification.program();
        if program.words == 0 {
            return [(0, 0); 4];
        }
        part_pairs(program, part as u64, words, &self.nothing)
    }
}
