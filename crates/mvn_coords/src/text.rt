//! The cut of a path at its last slash.
ghost use Rattle.std.specs.Prelude.{◌≡◌, ◌++◌, ◌∷◌, [], MatchOption};
ghost use Rattle.mvn_coords.specs.Segment.{levels};

/// What stands before the last slash of a path, and the last segment.
pub(crate) fn cut_last(path: &str) -> Option<(&str, &str)>
    ensures { MatchOption result (levels path.now ≡ path.now ∷ [])
        (λ cut. (levels path.now ≡ cut.1.now ∷ levels cut.0.now)
        × (path.now ≡ cut.0.now ++ 47 ∷ cut.1.now)) }
{
    path.rsplit_once('/')
}
