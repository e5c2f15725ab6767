//! Requests judged, written out. Each is the contract of a function that does nothing.
ghost use Rattle.repo_routes.specs.Worked.{AsksFor, RefusesInOrder, RefusesWithoutBody};

/// Each step refuses before the later ones, which would refuse the same head too.
pub fn refusals_in_order()
    ensures { RefusesInOrder }
{}

/// What a refusal of a request without a body does to its connection, and what HEAD, other letters, other sorts of
/// repositories and escapes make of a request.
pub fn refusals_without_body()
    ensures { RefusesWithoutBody }
{}

/// What requests ask for that are not refused.
pub fn worked_requests()
    ensures { AsksFor }
{}
