//! Lanes that are put together by the events' numbers, with no sort: each event has its place.

ghost use Rattle.std.specs.Prelude.{◌≡◌, ℕ, List, length, slice_get, Some};
ghost use Rattle.std.specs.List.{All};
ghost use Rattle.vyrd_base.specs.declared.history.Stamped.{Stamped};
ghost use Rattle.vyrd_trace.specs.Closing.{IsMerge, lanes_of};

use crate::hand::Hand;
use vyrd_base::Stamped;

/// Writes each event of a lane at its number, if there is such a place. Whatever history has them
/// there has what is written.
fn place(history: &mut [Stamped], lane: &[Stamped])
    ensures kept { (h : List Stamped) (i : ℕ) → All (λ e. slice_get h e.number ≡ Some e) lane.now
        → slice_get history.old i ≡ slice_get h i
        → slice_get history.new i ≡ slice_get h i }
    ensures placed { (h : List Stamped) → All (λ e. slice_get h e.number ≡ Some e) lane.now
        → length h ≡ length history.old
        → All (λ e. slice_get history.new e.number ≡ Some e) lane.now }
{
    for event in lane {
        // Until the hands have ended nothing says that there is.
        let number = event.number as usize;
        if number < history.len() {
            history[number] = *event;
        }
    }
}

/// Writes the history that the hands' lanes are the parts of, once there is one, over a list of its
/// length. Linear in their length.
pub(crate) fn merge(history: &mut [Stamped], hands: &[Hand])
    requires { All (λ h. h.forgotten ≡ 0) hands.now }
    ensures { (h : List Stamped) → IsMerge h (lanes_of hands.now)
        → length h ≡ length history.old
        → history.new ≡ h }
{
    for hand in hands {
        place(history, hand.lane());
    }
}
