//! Versions and their order.

ghost use Rattle.std.specs.Prelude.{◌≡◌, IfOk, bytes_eq, map};
ghost use Rattle.std.proofs.Common.{refl};
ghost use Rattle.std.specs.Cmp.{partial_equiv_from_equiv, po};
ghost use Rattle.std.specs.Cmp.Lexicographic.{nat_list_eq_equiv};
ghost use Rattle.std.specs.Ordering.{as_partial_cmp};
ghost use Rattle.mvn_version.specs.Element.{shown};
ghost use Rattle.mvn_version.specs.Key.{key};
ghost use Rattle.mvn_version.specs.Laws.{bytes_eq_ties, list_cmp_total};
ghost use Rattle.mvn_version.specs.Order.{ended, list_cmp, version_cmp};

use crate::element::{Element, elements};
use crate::token::{folded, tokens};
use std::alloc::{AllocError, Global};
use std::cmp::Ordering;
use std::marker::Model;
use std::sync::Arc;

/// There was no memory left.
pub type NoMemory = AllocError;

/// A text and the elements of its key.
#[derive(Debug, Drop)]
struct Parsed {
    text: String,
    elements: Vec<Element>,
}

/// A version: a text, kept as it is, and its key, which clones of it share. Contracts see the bytes of the text, so `==`
/// is that of texts.
#[derive(Debug, Drop)]
pub struct Version {
    parsed: Arc<Parsed, Global>,
}

impl Model for Version {
    ghost use Rattle.std.specs.Prelude.{◌≡◌, ℕ, List, map, string_bytes};
    ghost use Rattle.std.specs.Arc.{arc_value};
    ghost use Rattle.mvn_version.specs.Element.{shown};
    ghost use Rattle.mvn_version.specs.Key.{key};
    ghost use Rattle.mvn_version.specs.Order.{ended};

    ghost Value = { List ℕ };

    ghost view = { λ v. string_bytes (arc_value v.parsed).text };

    ghost invariant = { λ v. map shown (arc_value v.parsed).elements.items
        ≡ ended (key (string_bytes (arc_value v.parsed).text)) };
}

impl Version {
    /// The version with this text, in time linear in its length.
    pub fn parse(alloc: Global, text: &str) -> Result<Version, NoMemory>
        ensures { IfOk result (λ v. v ≡ text.now) }
    {
        let folded = folded(alloc, text.as_bytes())?;
        let tokens = tokens(alloc, &folded)?;
        let elements = elements(alloc, &tokens)?;
        let text = String::from_str(alloc, text)?;
        let parsed = Arc::new(alloc, Parsed { text, elements })?;
        Ok(Version { parsed })
    }

    /// The text that the version was parsed from.
    pub fn as_str(&self) -> &str
        ensures { result.now ≡ self.now }
    {
        self.parsed.text.as_str()
    }

    fn elements(&self) -> &[Element]
        ensures { map shown result.now ≡ ended (key self.now) }
    {
        self.parsed.elements.as_slice()
    }
}

/// The same version, which shares its text and its key. It fails only where there are too many to count.
impl Clone for Version {
    ghost is_clone = { λ v w. w ≡ v };

    fn clone(&self) -> Result<Version, NoMemory> {
        let parsed = Arc::try_clone(&self.parsed)?;
        Ok(Version { parsed })
    }
}

/// Maven's order of two versions, which is that of their keys: a total preorder, in which versions such as `1` and
/// `1.0` are equal (`laws::version_laws`). It takes no memory.
pub fn compare(left: &Version, right: &Version) -> Ordering
    ensures { result ≡ version_cmp left.now right.now }
{
    left.elements().cmp(right.elements())
}

impl PartialEq for Version {
    ghost eq = { bytes_eq };

    ghost laws = { partial_equiv_from_equiv nat_list_eq_equiv };

    fn eq(&self, other: &Version) -> bool {
        self.as_str() == other.as_str()
    }
}

impl Eq for Version {
    ghost laws = { nat_list_eq_equiv };
}

/// The order in lists of versions: that of `compare`, and where it answers `Equal` the byte order of the texts.
impl Ord for Version {
    ghost cmp = { list_cmp };

    ghost total = { list_cmp_total };

    ghost matches_partial_cmp = { λ v w. refl };

    ghost matches_eq = { bytes_eq_ties };

    fn cmp(&self, other: &Version) -> Ordering {
        compare(self, other).then_with(|| self.as_str().cmp(other.as_str()))
    }
}

impl PartialOrd for Version {
    ghost partial_cmp = { as_partial_cmp list_cmp };

    ghost laws = { po list_cmp_total bytes_eq_ties };

    fn partial_cmp(&self, other: &Version) -> Option<Ordering> {
        Some(self.cmp(other))
    }
}
