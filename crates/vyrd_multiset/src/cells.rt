//! The cells of slots and buckets.

ghost use Rattle.std.specs.Prelude.{◌≡◌, ◌+◌, ◌*◌, ◌<◌, ◌^◌};
ghost use Rattle.vyrd_base.specs.declared.subject.Subject.TheVariants.{Multiset};
ghost use Rattle.vyrd_multiset.specs.Cells.{bucket_of, first_slot, state_cell, value_cell, lock_of};

use vyrd_base::Header;

/// A slot that may be taken.
pub(crate) const FREE: u64 = 0;
/// A slot that is taken, whose value isn't in the multiset yet.
pub(crate) const RESERVED: u64 = 1;
/// A slot whose value is in the multiset.
pub(crate) const VALID: u64 = 2;

/// The bucket of a value.
#[tactic(auto, using(crate::proofs::Buckets::some_buckets, crate::proofs::Buckets::few_buckets))]
pub(crate) fn bucket_of(header: &Header, value: u32) -> u32
    requires { header.now.subject ≡ Multiset }
    ensures bucket { result ≡ bucket_of header.now value }
    ensures small { result < 1024 }
{
    value % header.size()
}

/// The first slot of the bucket of a value.
pub(crate) fn first_slot_for(header: &Header, value: u32) -> u32
    requires { header.now.subject ≡ Multiset }
    ensures { result ≡ first_slot (bucket_of header.now value) }
{
    4 * bucket_of(header, value)
}

/// The cell of a bucket's lock.
#[tactic(auto, using(crate::proofs::Buckets::few_buckets))]
pub(crate) fn lock_of(header: &Header, bucket: u32) -> u32
    requires subject { header.now.subject ≡ Multiset }
    requires bucket { bucket < 1024 }
    ensures { result ≡ lock_of header.now bucket }
{
    8 * header.size() + bucket
}

/// The cell of the lock of a value's bucket.
pub(crate) fn lock_for(header: &Header, value: u32) -> u32
    requires { header.now.subject ≡ Multiset }
    ensures { result ≡ lock_of header.now (bucket_of header.now value) }
{
    lock_of(header, bucket_of(header, value))
}

/// The cell of a slot's state.
pub(crate) fn state_cell(slot: u32) -> u32
    requires { state_cell slot < 2 ^ 32 }
    ensures { result ≡ state_cell slot }
{
    2 * slot
}

/// The cell of a slot's value.
pub(crate) fn value_cell(slot: u32) -> u32
    requires { value_cell slot < 2 ^ 32 }
    ensures { result ≡ value_cell slot }
{
    2 * slot + 1
}
