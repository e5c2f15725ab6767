// Seats for many callers at once, and all of them joined again.
ghost use Rattle.std.specs.Prelude.{◌≡◌, ◌+◌, ◌<◌, ◌≤◌, [], All, map, vec_len, vec_capacity};
ghost use Rattle.turn_lock.specs.History.{IsStep};
ghost use Rattle.turn_lock.specs.Seats.{given, parts_of, IsSeatOf, Same, IsFresh, Rise, JoinsAll};

use crate::seat::Seat;
use crate::thing::Thing;
use crate::turns::Turns;

/// Splits off so many seats of one part each, in a room that was made before and is empty; this seat keeps at least one part. Each has seen what this one has seen, has made no call, and has a number of its own. It takes no memory.
pub fn split_many<T: Thing>(
    turns: &Turns<T>,
    seat: &mut Seat<T>,
    count: usize,
    mut room: Vec<Seat<T>>,
) -> Vec<Seat<T>>
    requires seat { IsSeatOf (IsStep T.fixed T.may_ask T.turned) turns.now seat.old }
    requires parts { count < parts_of seat.old }
    requires room { (room.items ≡ []) × (count ≤ vec_capacity room) }
    ensures old { IsSeatOf (IsStep T.fixed T.may_ask T.turned) turns.now seat.new × Same seat.old seat.new × (parts_of seat.new + count ≡ parts_of seat.old) }
    ensures new { All (λ other. IsSeatOf (IsStep T.fixed T.may_ask T.turned) turns.now other × IsFresh seat.old other) result.items }
    ensures numbers { Rise (given seat.old) result.items (given seat.new) }
    ensures len { vec_len result ≡ count }
{
    for _ in 0..count {
        room.push_reserved(seat.split(turns, 1));
    }
    room
}

/// Takes in all these seats, and sees the history as far as it goes: that begins with what any of them had seen. What came with the seats is given in their order, in a room that was made before and is empty. It takes no memory.
pub fn join_all<T: Thing, D: Drop>(
    turns: &Turns<T>,
    seat: &mut Seat<T>,
    others: Vec<(Seat<T>, D)>,
    mut room: Vec<D>,
) -> Vec<D>
    requires seat { IsSeatOf (IsStep T.fixed T.may_ask T.turned) turns.now seat.old }
    requires others { All (λ other. IsSeatOf (IsStep T.fixed T.may_ask T.turned) turns.now other.0) others.items }
    requires room { (room.items ≡ []) × (vec_len others ≤ vec_capacity room) }
    ensures seat { IsSeatOf (IsStep T.fixed T.may_ask T.turned) turns.now seat.new }
    ensures joined { JoinsAll seat.old (map (λ other. other.0) others.items) seat.new }
    ensures back { result.items ≡ map (λ other. other.1) others.items }
{
    for (other, with) in others {
        seat.join(turns, other);
        room.push_reserved(with);
    }
    room
}
