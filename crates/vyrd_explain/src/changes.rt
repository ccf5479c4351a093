//! What changes along the entries of a log.

ghost use Rattle.std.specs.Prelude.{◌≡◌, ◌<◌, ◌^◌, length, IfOk, true};
ghost use Rattle.std.specs.Arc.{arc_value};
ghost use Rattle.vyrd_base.specs.declared.subject.Subject.TheVariants.{Own};
ghost use Rattle.vyrd_base.specs.Front.{front};
ghost use Rattle.vyrd_base.specs.Rules.{built_in, own};
ghost use Rattle.vyrd_base.specs.Starts.{may_start};
ghost use Rattle.vyrd_base.specs.Subjects.{is_built_in};
ghost use Rattle.vyrd_item_text.specs.ItemText.{items_text};
ghost use Rattle.vyrd_follow.specs.Following.{followed_items};

use crate::front::front_len;
use std::alloc::{AllocError, Global};
use std::sync::Arc;
use vyrd_base::{Entry, Header, StartWord};
use vyrd_follow::{BuiltInWords, OwnWords, follow};
use vyrd_item_text::Lines;
use vyrd_own_spec::Specification;
use vyrd_own_states::FromSpecification;
use vyrd_states::{Begins, FromHeader};

/// What changes along the entries of a built-in structure, up to the first that breaks a rule of
/// shape.
pub(crate) fn changes_text<L: Lines>(
    alloc: Global,
    header: Header,
    lines: &L,
    starting: &[StartWord],
    entries: &[Entry],
) -> Result<Vec<u8>, AllocError>
    requires built_in { is_built_in header.subject ≡ true }
    requires may_start { may_start header starting.now ≡ true }
    requires few { length entries.now < 2 ^ 62 }
    ensures { IfOk result (λ text. text.items ≡ items_text (L.line lines.now)
        (followed_items (built_in header) starting.now (front header entries.now))) }
{
    let len = front_len(alloc, header, entries)?;
    let words = BuiltInWords::new(alloc, header, starting)?;
    let spec = FromHeader::new(header).begin(alloc, starting)?;
    let mut text = Vec::new(alloc);
    let (front, _) = entries.split_at(len);
    follow(
        alloc, words, spec, lines, header, starting, front, &mut text,
    )?;
    Ok(text)
}

/// The same by a specification of the user's own.
pub(crate) fn own_changes_text<L: Lines>(
    alloc: Global,
    header: Header,
    specification: Arc<Specification>,
    lines: &L,
    starting: &[StartWord],
    entries: &[Entry],
) -> Result<Vec<u8>, AllocError>
    requires own { header.subject ≡ Own }
    requires few { length entries.now < 2 ^ 62 }
    ensures { IfOk result (λ text. text.items ≡ items_text (L.line lines.now)
        (followed_items (own header (arc_value specification)) starting.now
        (front header entries.now))) }
{
    let len = front_len(alloc, header, entries)?;
    let own = Arc::try_clone(&specification)?;
    let words = OwnWords::new(alloc, header, own, starting)?;
    let spec = FromSpecification::new(header, specification).begin(alloc, starting)?;
    let mut text = Vec::new(alloc);
    let (front, _) = entries.split_at(len);
    follow(
        alloc, words, spec, lines, header, starting, front, &mut text,
    )?;
    Ok(text)
}
