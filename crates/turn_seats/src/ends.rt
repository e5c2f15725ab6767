//! The end of a history that many seats made.
ghost use Rattle.std.specs.Prelude.{◌≡◌, ◌+◌, ◌^◌, ◌≤◌, [], All, map, sum_by, vec_len, vec_capacity};
ghost use Rattle.turn_lock.specs.History.{IsStep};
ghost use Rattle.turn_lock.specs.Seats.{parts_of, IsSeatOf};
ghost use Rattle.turn_seats.specs.Ending.{Ended};

use turn_lock::{Seat, Thing, Turns, close, join_all};

/// Takes in all seats, which have all parts together, and ends the history. Gives the object as the last call left it, the number of all calls, and what came with the seats, in their order, in a room that was made before and is empty. It takes no memory.
pub fn end_all<T: Thing, D: Drop>(
    turns: Turns<T>,
    mut seat: Seat<T>,
    others: Vec<(Seat<T>, D)>,
    room: Vec<D>,
) -> (T, u64, Vec<D>)
    requires seat { IsSeatOf (IsStep T.fixed T.may_ask T.turned) turns seat }
    requires others { All (λ other. IsSeatOf (IsStep T.fixed T.may_ask T.turned) turns other.0) others.items }
    requires parts { parts_of seat + sum_by parts_of (map (λ other. other.0) others.items) ≡ 2 ^ 64 }
    requires room { (room.items ≡ []) × (vec_len others ≤ vec_capacity room) }
    ensures ended { Ended (IsStep T.fixed T.may_ask T.turned) turns seat (map (λ other. other.0) others.items) result.0 result.1 }
    ensures back { result.2.items ≡ map (λ other. other.1) others.items }
{
    let back = join_all(&turns, &mut seat, others, room);
    let (thing, calls) = close(turns, seat);
    (thing, calls, back)
}
