//! The path that a request target asks for (RFC 9112, section 3.2).
ghost use Rattle.std.specs.Prelude.{◌≡◌};
ghost use Rattle.std.specs.Option.{option_copied};
ghost use Rattle.repo_routes.specs.Steps.{result_shown};
ghost use Rattle.repo_routes.specs.Target as spec;

use crate::refusal::Refusal;
use byte_cuts::text::behind;

/// The path after an authority: from the next `/` on, and `/` where there is none.
#[tactic(auto, unfolding(crate::specs::Target::path_after))]
fn path_after(text: &str) -> &str
    ensures { result.now ≡ spec.path_after text.now }
{
    match text.find('/') {
        Some(at) => &text[at..],
        None => "/",
    }
}

/// The target in origin form: what begins with `/`, and of `http://` the path after its authority.
#[tactic(auto, unfolding(crate::specs::Target::origin_form), using(std::proofs::lemmas::Str::Pattern::starts_text))]
fn origin_form(target: &str) -> Option<&str>
    ensures { option_copied result ≡ spec.origin_form target.now }
{
    if target.starts_with("/") {
        return Some(target);
    }
    let text = behind("http://", target)?;
    Some(path_after(text))
}

/// The target up to its query.
#[tactic(auto, unfolding(crate::specs::Target::without_query))]
fn without_query(target: &str) -> &str
    ensures { result.now ≡ spec.without_query target.now }
{
    match target.split_once('?') {
        Some((path, _)) => path,
        None => target,
    }
}

/// The path of a target, without its query.
#[tactic(auto, unfolding(crate::specs::Target::target_path))]
pub(crate) fn target_path(target: &str) -> Result<&str, Refusal>
    ensures { result_shown (λ path. path.now) result ≡ spec.target_path target.now }
{
    match origin_form(target) {
        Some(path) => Ok(without_query(path)),
        None => Err(Refusal::BadTarget),
    }
}
