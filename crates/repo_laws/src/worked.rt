//! Worked cases of the machine.
ghost use Rattle.std.specs.Prelude.{◌≡◌, ◌++◌, [], ◌∷◌, None, Some, option_map};
ghost use Rattle.mvn_coords.specs.Calendar.{civil_of};
ghost use Rattle.mvn_metadata.specs.Written as written;
ghost use Rattle.repo_model.specs.declared.item.Item.TheVariants.{Faded, Removed};
ghost use Rattle.repo_model.specs.Document.{document};
ghost use Rattle.repo_model.specs.State.{opening, rows_of};
ghost use Rattle.repo_model.specs.Effect.{recorded};
ghost use Rattle.repo_model.specs.Command.{unlist, collect};
ghost use Rattle.repo_model.specs.Turn.{turn};
ghost use Rattle.repo_model.specs.History.{Legal, end};
ghost use Rattle.repo_laws.specs.Worked.{shop, shelves, releases, snapshots, nightly, jar_1, pom_1, artifact, builds, artifact_text, builds_text, pom_text, release_text};
ghost use Rattle.repo_laws.specs.Starts.{purge_begun, purged_later, sessions_ended, asked_again};
ghost use Rattle.repo_laws.specs.Fetches.{fetched, grouped, hourly_shop, an_hour};
ghost use Rattle.repo_laws.specs.Histories.{two_builds, faded, purged, read_to_its_end, listed_again, still_there, deployed, refused, sent_again, aged, staged_again, kept_a_day, shelved, shelves_faded, shelves_cleared};

/// The worked histories are legal.
pub fn worked_histories()
    ensures two_builds { Legal shop (opening shop None) two_builds }
    ensures purged { Legal shop (opening shop None) purged }
    ensures read_to_its_end { Legal shop (opening shop None) read_to_its_end }
    ensures listed_again { Legal shop (opening shop None) (listed_again ++ still_there) }
    ensures deployed { Legal shop (opening shop None) deployed }
    ensures refused { Legal shop (opening shop None) refused }
    ensures sent_again { Legal shop (opening shop None) sent_again }
    ensures aged { Legal shop (opening shop None) aged }
    ensures staged_again { Legal shop (opening shop None) staged_again }
    ensures kept_a_day { Legal shelves (opening shelves None) kept_a_day }
    ensures shelves_cleared { Legal shelves (opening shelves None) shelves_cleared }
{}

/// So are those of a proxy and of a group: what is fetched lands, a path that is missing is not asked for again for a while, a document
/// is asked for again after its hour, and a group asks its members one after another.
pub fn worked_fetches()
    ensures fetched { Legal shop (opening shop None) fetched }
    ensures grouped { Legal shop (opening shop None) grouped }
    ensures an_hour { Legal hourly_shop (opening hourly_shop None) an_hour }
{}

/// So are those after a start over the tables that such histories leave: what fades is read up to the grace and then goes, results
/// are kept, and numbers go on above what rows and the store have.
pub fn worked_starts()
    ensures purge { Legal shop purge_begun purged_later }
    ensures sessions { Legal shop sessions_ended asked_again }
{}

/// Rows fade and go in the order of the settings' repositories, and of paths in each.
pub fn worked_order()
    ensures fades { recorded (turn shelves (end shelves (opening shelves None) shelved) 87_401 (unlist snapshots)).effects
        ≡ Faded snapshots jar_1 87_401 ∷ Faded snapshots pom_1 87_401 ∷ [] }
    ensures goes { recorded (turn shelves (end shelves (opening shelves None) shelves_faded) 87_462 collect).effects
        ≡ Removed snapshots jar_1 ∷ Removed snapshots pom_1 ∷ Removed nightly jar_1 ∷ [] }
{}

/// The documents that they leave have these texts.
pub fn worked_documents()
    ensures builds { option_map written.text (document builds (rows_of snapshots (end shop (opening shop None) two_builds))) ≡ Some builds_text }
    ensures artifact { option_map written.text (document artifact (rows_of snapshots (end shop (opening shop None) two_builds))) ≡ Some artifact_text }
    ensures faded { option_map written.text (document builds (rows_of snapshots (end shop (opening shop None) faded))) ≡ Some pom_text }
    ensures listed_again { option_map written.text (document builds (rows_of snapshots (end shop (opening shop None) listed_again))) ≡ Some builds_text }
    ensures release { option_map written.text (document artifact (rows_of releases (end shop (opening shop None) sent_again))) ≡ Some release_text }
    ensures none { document builds (rows_of releases (end shop (opening shop None) sent_again)) ≡ None }
{}

/// The civil time of a moment on a leap day.
pub fn worked_moments()
    ensures { civil_of 1_709_208_000 ≡ record { year = 2024; month = 2; day = 29; hour = 12; minute = 0; second = 0 } }
{}
