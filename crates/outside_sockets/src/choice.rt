//! Which connection goes first where one has to be closed: one of which no byte ever came, and among several the one that has been
//! in its state longest. A connection that has had an answer has a client that works.
ghost use Rattle.std.specs.Prelude.{◌≡◌, List, [], ◌∷◌, ◌++◌, Some, true, false};
ghost use Rattle.outside_sockets.specs.Choice.{place_of, GoesNoLater, GoesFirst};

/// What came of a connection that no desk has.
#[derive(Clone, Copy)]
pub enum Rank {
    /// No byte since it was accepted.
    Silent,
    /// Bytes, and it goes on.
    Heard,
    /// Bytes, and it is being closed.
    Closing,
}

/// How a connection stands that no desk has.
#[derive(Clone, Copy)]
pub struct Standing {
    pub rank: Rank,
    /// Since when it has been in its state, in milliseconds of the clock.
    pub since: u64,
    /// The number of its place.
    pub number: usize,
}

// The silent ones come first, and those that are closing last.
fn place(rank: Rank) -> u8
    ensures { result ≡ place_of rank }
{
    match rank {
        Rank::Silent => 0,
        Rank::Heard => 1,
        Rank::Closing => 2,
    }
}

fn precedes(one: Standing, other: Standing) -> bool
    ensures it { result ≡ true → GoesNoLater one other }
    ensures not { result ≡ false → GoesNoLater other one }
{
    let first = place(one.rank);
    let second = place(other.rank);
    first < second || (first == second && one.since < other.since)
}

/// Whether one more goes first, where `first` goes first of those that were met.
pub fn is_first(first: Option<Standing>, standing: Standing) -> bool
    ensures it { (met : List Standing) → GoesFirst met first → result ≡ true → GoesFirst (met ++ standing ∷ []) (Some standing) }
    ensures stays { (met : List Standing) (other : Standing) → GoesFirst met first → result ≡ false → GoesNoLater standing other
        → GoesFirst (met ++ other ∷ []) first }
{
    match first {
        Some(first) => precedes(standing, first),
        None => true,
    }
}
