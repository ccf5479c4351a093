//! A verifier by itself.

ghost use Rattle.std.specs.Prelude.{◌≡◌, ◌<◌, ◌^◌};

use std::alloc::AllocError;
use std::test::Fail;
use vyrd_base::{Args, Did, Header, Kind, Method, MultisetMethod, Stamped, Subject, Verdict, Why};
use vyrd_verifier::Verifier;

/// A mark of caller 0.
fn marked(number: u64, kind: Kind) -> Stamped
    ensures { result.number ≡ number }
{
    Stamped {
        number,
        caller: 0,
        did: Did::Marked(kind),
    }
}

/// Takes in an event, if none with its number was taken in.
fn take_new(verifier: &mut Verifier, event: Stamped) -> Result<Option<Verdict>, AllocError>
    requires { event.number < 2 ^ 62 }
{
    if verifier.had(event.number) {
        return Ok(None);
    }
    verifier.take_in(event)
}

/// A delete of a key that isn't there replies 1. Its events are taken in last first, and this is
/// answered after each of them.
fn answers_backwards(
    verifier: &mut Verifier,
) -> Result<(Option<Verdict>, Option<Verdict>, Option<Verdict>), AllocError> {
    let five = Args { a: 5, b: 0, c: 0 };
    let reply = take_new(verifier, marked(2, Kind::Return(1)))?;
    let commit = take_new(verifier, marked(1, Kind::Commit))?;
    let call = take_new(
        verifier,
        marked(
            0,
            Kind::Call(Method::Multiset(MultisetMethod::Delete), five),
        ),
    )?;
    Ok((reply, commit, call))
}

#[test]
fn events_taken_in_backwards(rt: HostRuntime) -> Result<(), Fail> {
    let Some(header) = Header::new(1, Subject::Multiset, 1, 1) else {
        panic!(rt; "no header")
    };
    let refused = Verdict::Violation {
        line: 3,
        why: Why::Reply(1),
    };
    let mut verifier = Verifier::new(rt.alloc(), header)?;
    let Ok((reply, commit, call)) = answers_backwards(&mut verifier) else {
        panic!(rt; "no memory")
    };
    assert_eq!(rt; reply, None);
    assert_eq!(rt; commit, None);
    assert_eq!(rt; call, Some(refused));
    assert_eq!(rt; verifier.finish()?, refused);
    assert!(rt; verifier.had(2) && !verifier.had(3));
    Ok(())
}
