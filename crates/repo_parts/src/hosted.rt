//! The hosted repositories: which one is meant, which files it takes, and its rows.
ghost use Rattle.std.specs.Prelude.{◌≡◌, ◌<◌, ◌^◌, find, length, count_by, sum_by, bytes_eq, IsTrue};
ghost use Rattle.std.specs.Borrow.{sem};
ghost use Rattle.std.specs.List.{list_any, position};
ghost use Rattle.std.specs.Option.{option_map};
ghost use Rattle.repo_model.specs.Command.{is_fit};
ghost use Rattle.repo_model.specs.Paths.{takes};
ghost use Rattle.repo_model.specs.State.{row_at, is_repository};
ghost use Rattle.ordered_rows.specs.Rows.{fades, shown_at};
ghost use Rattle.repo_parts.specs.Hosted.{rules_of, rows_in};
ghost use Rattle.repo_parts.specs.Lending.{LendsRepository};

use hosted_repo::{Hosted, Row};
use mvn_coords::kind_of;
use outside::Held;

/// The repository of an id.
pub fn repo_at<'a, H: Held>(repos: &'a [Hosted<H>], id: &str) -> Option<&'a Hosted<H>>
    ensures rule { option_map (λ repo. repo.now.rule) result ≡ find (λ rule. bytes_eq rule.id id.now) (rules_of repos.now) }
    ensures repo { option_map (λ repo. repo.now) result ≡ find (is_repository id.now) repos.now }
{
    repos.iter().find(|repo| repo.has_id(id))
}

// The place of the repository of an id.
fn place_of<H: Held>(repos: &[Hosted<H>], id: &str) -> Option<usize>
    ensures { result ≡ position (is_repository id.now) repos.now }
{
    repos.iter().position(|repo| repo.has_id(id))
}

/// The repository of an id, which is there.
pub fn repo_mut<'a, H: Held>(repos: &'a mut Vec<Hosted<H>>, id: &str) -> &'a mut Hosted<H>
    requires { IsTrue (list_any (is_repository id.now) repos.old.items) }
    ensures* lends { sem 𝓛 (LendsRepository H.row H.Held repos.entry id.now result) }
    ensures found { find (is_repository id.now) repos.old.items ≡ Some result.now }
{
    match place_of(repos, id) {
        Some(place) => &mut repos[place],
        None => unreachable!(),
    }
}

/// Whether the repository of an id is there and takes the file of the path.
pub fn takes<H: Held>(repos: &[Hosted<H>], id: &str, path: &str) -> bool
    ensures rule { result ≡ is_fit (λ rule. takes rule path.now) (find (λ rule. bytes_eq rule.id id.now) (rules_of repos.now)) }
    ensures repo { result ≡ is_fit (λ h. takes h.rule path.now) (find (is_repository id.now) repos.now) }
{
    match (repo_at(repos, id), kind_of(path)) {
        (Some(repo), Ok(kind)) => repo.may_put(&kind),
        _ => false,
    }
}

/// The row at a path of the repository of an id.
pub fn row_of<'a, H: Held>(repos: &'a [Hosted<H>], id: &str, path: &str) -> Option<&'a Row<H>>
    ensures { option_map (λ row. shown_at path.now row.now) result ≡ row_at path.now (rows_in id.now repos.now) }
{
    repo_at(repos, id)?.row(path)
}

/// How many rows the repositories have, and how many of them are unlisted.
pub fn counts<H: Held>(repos: &[Hosted<H>]) -> (u64, u64)
    requires { sum_by (λ h. length h.rows) repos.now < 2 ^ 64 }
    ensures all { result.0 ≡ sum_by (λ h. length h.rows) repos.now }
    ensures fading { result.1 ≡ sum_by (λ h. count_by fades h.rows) repos.now }
{
    let mut all = 0;
    let mut fading = 0;
    for repo in repos {
        let (rows, unlisted) = repo.counts();
        all += rows;
        fading += unlisted;
    }
    (all, fading)
}
