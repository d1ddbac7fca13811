//! How a list grows.

ghost use Rattle.std.specs.Prelude.{◌≤◌};

/// For how many more elements a list is to make room: for one where it has that room. Else first for 16, and then for three times
/// as many as it has, at least 1,008, so that elements are seldom moved, and little room is left behind that they were moved from.
pub fn growth<T>(list: &Vec<T>) -> usize
    ensures { 1 ≤ result }
{
    let len = list.len();
    if len < list.capacity() {
        1
    } else if len == 0 {
        16
    } else {
        len.saturating_mul(3).max(1008)
    }
}
