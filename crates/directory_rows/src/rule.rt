//! What a hosted repository takes and keeps.
ghost use Rattle.std.specs.Prelude.{◌≡◌};
ghost use Rattle.repo_model.specs.Paths.{takes_file, file_in};
ghost use Rattle.directory_rows.specs.Rules.{shown_rule};

use mvn_coords::Kind;
use texts::Text;

/// The rule of a hosted repository: its id, whether it takes files of releases and of snapshots, and what it keeps of its
/// snapshots: so many of a directory's newest builds, and for so many days the others.
#[derive(Drop)]
pub struct Rule {
    pub id: Text,
    pub releases: bool,
    pub snapshots: bool,
    pub keep_count: u64,
    pub keep_days: u64,
}

impl Rule {
    /// Whether the repository takes what a path of this kind names: a file of a release, or of a snapshot.
    pub fn takes(&self, kind: &Kind<'_>) -> bool
        ensures { result ≡ takes_file (shown_rule self.now) (file_in (Ok kind.now)) }
    {
        match kind {
            Kind::File(c) => {
                if c.is_snapshot() {
                    self.snapshots
                } else {
                    self.releases
                }
            }
            _ => false,
        }
    }
}
