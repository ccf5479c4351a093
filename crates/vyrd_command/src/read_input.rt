//! Reading an input, whole or read by read.

ghost use Rattle.std.specs.Prelude.{◌≡◌, ◌+◌, ◌≤◌, ◌<◌, false, take, drop, vec_len};
ghost use Rattle.std.specs.Prelude.{IfOk, OnOk, OnErr};
ghost use Rattle.vyrd_base.specs.Devices.{Gives, GivesNothing, AfterReads};
ghost use Rattle.vyrd_check_command.specs.Inputs.{longest_read, is_failed};
ghost use Rattle.vyrd_command.specs.Inputs.{IsInputRead, IsMoreRead, IsFewTaken};

use std::alloc::{AllocError, Global};
use vyrd_base::Source;
use vyrd_check_command::{LONGEST_READ, ReadFault};

/// How many bytes of a workload are read at most: 32 MiB, and one byte that shows that there are
/// more.
pub(crate) const LONGEST_WORK: usize = 33_554_433;

/// How many bytes of a batch are read at most: 64 MiB, the last line of 4 bytes, and one byte that
/// shows that there are more.
pub(crate) const LONGEST_BATCH: usize = 67_108_869;

/// Reads to the source's end, or at most `most` bytes.
///
/// Each read takes at most 65,536 bytes, straight into the vector. The time and the memory grow
/// with the bytes.
pub fn read_input<S: Source>(
    alloc: Global,
    most: usize,
    source: &mut S,
) -> Result<Vec<u8>, ReadFault>
    requires unended { (S.known source.old).ended ≡ false }
    ensures read { IfOk result
        (λ bytes. IsInputRead most (S.known source.old) (S.known source.new) bytes.items) }
    ensures few { IsFewTaken most (S.known source.old) (S.known source.new) }
    ensures source { AfterReads (is_failed result) (S.known source.old) (S.known source.new) }
{
    let mut bytes = Vec::new(alloc);
    let mut count = 0;
    while count < most {
        make_room(most, count, &mut bytes)?;
        let n = read_behind(count, &mut bytes, source)?;
        if n == 0 {
            break;
        }
        count += n;
    }
    bytes.truncate(count);
    Ok(bytes)
}

/// Reads once, at most `most` bytes, and appends what came. The answer says how much that is; it is
/// 0 at the source's end.
///
/// The read takes at most 65,536 bytes. After an error nothing is known of `bytes`.
pub fn read_more<S: Source>(
    most: usize,
    bytes: &mut Vec<u8>,
    source: &mut S,
) -> Result<usize, ReadFault>
    requires some { 0 < most }
    requires unended { (S.known source.old).ended ≡ false }
    ensures more { IfOk result
        (IsMoreRead most (S.known source.old) (S.known source.new) bytes.old.items
        bytes.new.items) }
    ensures kept { OnErr result (GivesNothing (S.known source.old) (S.known source.new)) }
    ensures source { AfterReads (is_failed result) (S.known source.old) (S.known source.new) }
{
    let count = bytes.len();
    bytes.resize(count + LONGEST_READ.min(most), 0)?;
    let n = read_behind(count, bytes, source)?;
    bytes.truncate(count + n);
    Ok(n)
}

/// Makes room for a read after the first `count` bytes, which stay. There are at most `most` bytes.
fn make_room(most: usize, count: usize, bytes: &mut Vec<u8>) -> Result<(), AllocError>
    requires within { count ≤ vec_len bytes.old }
    requires few { count < most }
    requires high { vec_len bytes.old ≤ most }
    requires short { vec_len bytes.old ≤ count + longest_read }
    ensures room { OnOk result (count < vec_len bytes.new) }
    ensures front { take count bytes.new.items ≡ take count bytes.old.items }
    ensures high { vec_len bytes.new ≤ most }
    ensures short { vec_len bytes.new ≤ count + longest_read }
{
    if count < bytes.len() {
        return Ok(());
    }
    let room = LONGEST_READ.min(most - count);
    bytes.resize(count + room, 0)
}

/// Reads once, and puts what comes after the first `count` bytes. The answer says how much came.
fn read_behind<S: Source>(
    count: usize,
    bytes: &mut Vec<u8>,
    source: &mut S,
) -> Result<usize, ReadFault>
    requires room { count < vec_len bytes.old }
    requires short { vec_len bytes.old ≤ count + longest_read }
    requires unended { (S.known source.old).ended ≡ false }
    ensures given { IfOk result
        (λ n. Gives (S.known source.old) n (drop count bytes.new.items) (S.known source.new)) }
    ensures kept { OnErr result (GivesNothing (S.known source.old) (S.known source.new)) }
    ensures front { take count bytes.new.items ≡ take count bytes.old.items }
    ensures len { vec_len bytes.new ≡ vec_len bytes.old }
    ensures source { AfterReads (is_failed result) (S.known source.old) (S.known source.new) }
{
    let (_, room) = bytes.split_at_mut(count);
    match source.read(room) {
        Ok(n) => Ok(n),
        Err(_) => Err(ReadFault::Failed),
    }
}
