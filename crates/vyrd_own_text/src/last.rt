//! What may stand directly below the last line.

ghost use Rattle.std.specs.Prelude.{◌≡◌};
ghost use Rattle.vyrd_base.specs.Own.Outer.{is_list, is_part};

use vyrd_base::Last;

/// Whether an element of a list may stand here.
pub fn is_list(last: Last) -> bool
    ensures { result ≡ is_list last }
{
    match last {
        Last::List => true,
        _ => false,
    }
}

/// Whether what a part gives to a key may stand here.
pub fn is_part(last: Last) -> bool
    ensures { result ≡ is_part last }
{
    match last {
        Last::Part => true,
        _ => false,
    }
}
