ghost use Rattle.std.specs.Prelude.{◌≡◌, IfSome, length};

use mvn_digest::Further;
use repo_model::Recorded;

// A SHA-256 digest has 32 bytes.
fn size_of(further: Further)
    ensures { length further.sha256 ≡ 32 }
{}

/// SHA-256 has 32 bytes, where it is recorded.
pub fn sizes(print: Recorded)
    ensures { IfSome print.digests.further (λ further. length further.sha256 ≡ 32) }
{
    if let Some(further) = print.digests.further {
        size_of(further);
    }
}
