//! What holds of all side files, and worked digests and side files, as contracts of functions that do nothing.
ghost use Rattle.std.specs.Prelude.{◌≡◌, ℕ, List, Some, length};
ghost use Rattle.hex.specs.Hex.{IsBytes};
ghost use Rattle.mvn_coords.specs.declared.fault.Side.{Side};
ghost use Rattle.mvn_digest.specs.Hex.{hex_text};
ghost use Rattle.mvn_digest.specs.Sides.{digest_size, read_side};
ghost use Rattle.mvn_digest.specs.Worked.{WorkedDigests, WorkedSides};

/// The text that is written of a digest is read as that digest.
pub fn side_law()
    ensures { (side : Side) (digest : List ℕ) → length digest ≡ digest_size side → IsBytes digest
        → read_side side (hex_text digest) ≡ Some digest }
{}

/// The digests' texts of `abc` and of no bytes.
pub fn worked_digests()
    ensures { WorkedDigests }
{}

/// Texts of side files, and the digests that they say.
pub fn worked_sides()
    ensures { WorkedSides }
{}
