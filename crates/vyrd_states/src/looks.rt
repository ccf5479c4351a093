//! Which keys a call looks at.

ghost use Rattle.std.specs.Prelude.{◌≡◌, ◌≤◌, [], ◌∷◌, take};
ghost use Rattle.vyrd_states.specs.Looks.{keys_looked_at, pair_keys};

use vyrd_base::{Args, BuffersMethod, Method, MultisetMethod};

/// How many of the first two arguments of a call name keys that it looks at, each of them once.
pub fn keys_named(method: Method, args: Args) -> usize
    ensures keys { keys_looked_at method args ≡ take result (args.a ∷ args.b ∷ []) }
    ensures few { result ≤ 2 }
{
    match method {
        Method::Multiset(MultisetMethod::InsertPair) => keys_of_pair(args),
        Method::Buffers(BuffersMethod::AppendFrom) => keys_of_pair(args),
        Method::Multiset(_) | Method::Cache(_) | Method::Tree(_) | Method::Buffers(_) => 1,
        Method::OwnNever(_) | Method::OwnAtMostOnce(_) | Method::OwnOnce(_) => 0,
    }
}

/// The same of a call that looks at both.
fn keys_of_pair(args: Args) -> usize
    ensures keys { pair_keys args.a args.b ≡ take result (args.a ∷ args.b ∷ []) }
    ensures few { result ≤ 2 }
{
    if args.a == args.b { 1 } else { 2 }
}
