//! Writing an answer to a sink.

ghost use Rattle.std.specs.Prelude.{◌≡◌, ◌≢◌, ◌≤◌, ◌⊎◌, ◌==◌, [], length, OnOk, OnErr, is_err};
ghost use Rattle.vyrd_base.specs.Devices.{AfterWrites};
ghost use Rattle.vyrd_check_command.specs.Outputs.{Appends, AppendsFront};

use crate::answer::Answer;
use crate::ended::Ended;
use crate::status::{USAGE, WRITE_FAULT};
use vyrd_base::{Failed, Sink};

/// Writes all of the text. After a failed write the sink has taken some of the first of its bytes.
fn deliver<K: Sink>(sink: &mut K, text: &[u8]) -> Result<(), Failed>
    ensures all { OnOk result (Appends (K.known sink.old).taken (K.known sink.new).taken text.now) }
    ensures front { OnErr result
        (AppendsFront (K.known sink.old).taken (K.known sink.new).taken text.now) }
    ensures sink { AfterWrites (is_err result) (length text.now ≤ (K.known sink.old).sure_room)
        (K.known sink.old) (K.known sink.new) }
{
    let mut written = 0;
    while written < text.len() {
        let (_, rest) = text.split_at(written);
        written += sink.write(rest)?;
    }
    Ok(())
}

/// Writes an answer. A failed write takes the place of its status.
pub fn give<K: Sink>(sink: &mut K, answer: Answer) -> Ended
    ensures given { result.status ≢ 5
        → (result.status ≡ answer.status)
        × Appends (K.known sink.old).taken (K.known sink.new).taken answer.text.items }
    ensures in_part { result.status ≡ 5 → answer.status ≢ 5
        → AppendsFront (K.known sink.old).taken (K.known sink.new).taken answer.text.items }
    ensures silent { answer.text.items ≡ [] → result.status ≡ answer.status }
    ensures statuses { (result.status ≡ 5) ⊎ (result.status ≡ answer.status) }
    ensures sink { answer.status ≢ 5 → AfterWrites (result.status == 5)
        (length answer.text.items ≤ (K.known sink.old).sure_room) (K.known sink.old)
        (K.known sink.new) }
{
    let status = match deliver(sink, &answer.text) {
        Ok(()) => answer.status,
        Err(_) => WRITE_FAULT,
    };
    Ended { status }
}

/// Writes a usage line.
pub fn give_usage<K: Sink>(sink: &mut K, line: &[u8]) -> Ended
    ensures statuses { (result.status ≡ 3) ⊎ (result.status ≡ 5) }
    ensures given { result.status ≡ 3
        → Appends (K.known sink.old).taken (K.known sink.new).taken line.now }
    ensures in_part { result.status ≡ 5
        → AppendsFront (K.known sink.old).taken (K.known sink.new).taken line.now }
    ensures sink { AfterWrites (result.status == 5)
        (length line.now ≤ (K.known sink.old).sure_room) (K.known sink.old) (K.known sink.new) }
{
    let status = match deliver(sink, line) {
        Ok(()) => USAGE,
        Err(_) => WRITE_FAULT,
    };
    Ended { status }
}
