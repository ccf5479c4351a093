//! What a specification of a user's own begins from.

ghost use Rattle.std.specs.Prelude.{◌≡◌};
ghost use Rattle.std.specs.Arc.{arc_value};
ghost use Rattle.vyrd_base.specs.declared.subject.Subject.TheVariants.{Own};
ghost use Rattle.vyrd_base.specs.Rules.{own};

use std::alloc::{AllocError, Global};
use std::sync::Arc;
use vyrd_base::{Header, StartWord};
use vyrd_own_spec::{OwnSpec, Specification};
use vyrd_states::Begins;
use vyrd_witness::words_at_start;

/// A structure of a user's own: its header, and its specification, which is shared.
#[derive(Drop)]
pub struct FromSpecification {
    header: Header,
    specification: Arc<Specification>,
    ghost subject: { header.subject ≡ Own },
}

impl FromSpecification {
    /// That with this header and this specification.
    pub fn new(header: Header, specification: Arc<Specification>) -> FromSpecification
        requires subject { header.subject ≡ Own }
        ensures header { result.header ≡ header }
        ensures lines { arc_value result.specification ≡ arc_value specification }
    {
        FromSpecification {
            header,
            specification,
        }
    }
}

impl Begins for FromSpecification {
    ghost charter = { λ b. own b.header (arc_value b.specification) };

    type Running = OwnSpec;

    /// It takes time and memory in proportion to the words.
    fn begin(&self, alloc: Global, starting: &[StartWord]) -> Result<Option<OwnSpec>, AllocError> {
        let words = words_at_start(alloc, self.header, starting)?;
        let specification = Arc::try_clone(&self.specification)?;
        OwnSpec::start(alloc, self.header, specification, &words)
    }
}
