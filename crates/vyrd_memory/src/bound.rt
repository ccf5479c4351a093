//! How many events an operation has at most.

ghost use Rattle.std.specs.Prelude.{◌≡◌, ◌≤◌};
ghost use Rattle.vyrd_memory.specs.Bounds.{bound_of, most_op_events};

use vyrd_base::{Header, Method, Subject, TreeMethod};

/// The most events of a multiset's operation.
const MULTISET: u64 = 32;

/// The most events of a cache's operation.
const CACHE: u64 = 16;

/// The most events of an operation on string buffers.
const BUFFERS: u64 = 32;

/// What stands for the bound of the user's own structure, which has no operation here: the marks of a
/// call and its return.
const OWN: u64 = 2;

/// How many walks an insert into a tree makes at most: one down to the leaf, and one for each of 16
/// rounds upwards.
const INSERT_WALKS: u64 = 17;

/// The bound of an operation of the method, with the marks of its call and its return: at most
/// 279,208 events.
pub(crate) fn bound(header: &Header, method: Method) -> u64
    ensures bound { result ≡ bound_of header.now method }
    ensures some { 1 ≤ result }
    ensures small { result ≤ most_op_events }
{
    match header.subject() {
        Subject::Multiset => MULTISET,
        Subject::Cache => CACHE,
        Subject::Buffers => BUFFERS,
        Subject::Own => OWN,
        Subject::Tree => {
            let walk = 16 * u64::from(header.size()) + 40;
            if method == Method::Tree(TreeMethod::Insert) {
                INSERT_WALKS * walk
            } else {
                walk
            }
        }
    }
}
