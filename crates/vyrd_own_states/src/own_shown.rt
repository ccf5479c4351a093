//! What the words of a structure of the user's own show.

ghost use Rattle.std.specs.Prelude.{◌≡◌, IfOk};
ghost use Rattle.std.specs.Arc.{arc_value};
ghost use Rattle.vyrd_base.specs.declared.subject.Subject.TheVariants.{Own};
ghost use Rattle.vyrd_base.specs.Rules.{own};

use crate::begins::FromSpecification;
use crate::own_amount::{amount_after, amount_by, put_given};
use std::alloc::{AllocError, Global};
use std::marker::Model;
use std::sync::Arc;
use vyrd_base::Header;
use vyrd_own_spec::{OwnParts, Specification};
use vyrd_view::Decode;
use vyrd_witness::Shown;

/// What the words of a structure of the user's own show, by its specification. It is seen as its
/// charter: the header and the specification's lines.
///
/// The amount of a key is added up over all parts of the words: that takes time in proportion to
/// the words, and no memory. After a change only the part of the changed word is looked at: that
/// takes time and memory in proportion to a part. Words behind the last whole part show nothing.
#[derive(Drop)]
pub struct OwnShown {
    header: Header,
    specification: Arc<Specification>,
    parts: OwnParts,
}

impl Model for OwnShown {
    ghost use Rattle.std.specs.Prelude.{◌≡◌, ◌/◌};
    ghost use Rattle.std.specs.Arc.{arc_value};
    ghost use Rattle.vyrd_base.specs.declared.subject.Subject.TheVariants.{Own};
    ghost use Rattle.vyrd_base.specs.Rules.{Charter, own};

    ghost Value = { Charter };

    ghost view = { λ s. own s.header (arc_value s.parts.specification) };

    ghost invariant = { λ s. (s.header.subject ≡ Own) × (s.parts.header ≡ s.header)
        × (s.parts.parts ≡ s.header.size / s.parts.width)
        × (arc_value s.specification ≡ arc_value s.parts.specification) };
}

impl OwnShown {
    /// That of the header's words by this specification. The words needn't be a whole number of its
    /// parts. The only error is that memory has run out.
    pub fn new(
        alloc: Global,
        header: Header,
        specification: Arc<Specification>,
    ) -> Result<OwnShown, AllocError>
        requires subject { header.subject ≡ Own }
        ensures { IfOk result (λ s. s ≡ own header (arc_value specification)) }
    {
        let parts = OwnParts::new(alloc, header, Arc::try_clone(&specification)?)?;
        Ok(OwnShown {
            header,
            specification,
            parts,
        })
    }

    /// What its specification begins from, which is shared with it. The only error is that memory
    /// has run out.
    pub fn begins(&self) -> Result<FromSpecification, AllocError>
        ensures { IfOk result (λ b. own b.header (arc_value b.specification) ≡ self.now) }
    {
        let specification = Arc::try_clone(&self.specification)?;
        Ok(FromSpecification::new(self.header, specification))
    }
}

impl Shown for OwnShown {
    ghost charter = { λ s. s };

    fn header(&self) -> Header {
        self.header
    }

    fn amount(&self, _alloc: Global, words: &[u64], key: u64) -> Result<u128, AllocError> {
        let whole = self.parts.parts() * self.parts.width();
        Ok(amount_by(&self.parts, &words[..whole], key))
    }

    fn amount_after(
        &self,
        alloc: Global,
        words: &[u64],
        key: u64,
        before: u128,
        word: usize,
        was: u64,
    ) -> Result<u128, AllocError> {
        let whole = self.parts.parts() * self.parts.width();
        if word >= whole {
            return Ok(before);
        }
        amount_after(alloc, &self.parts, &words[..whole], key, before, word, was)
    }

    fn put_parts(
        &self,
        _alloc: Global,
        words: &[u64],
        key: u64,
        parts: &mut Vec<(usize, u128)>,
    ) -> Result<(), AllocError> {
        let whole = self.parts.parts() * self.parts.width();
        put_given(&self.parts, &words[..whole], key, parts)
    }
}
