//! What is at a path, and what is asked of it.
ghost use Rattle.std.specs.Prelude.{◌≡◌};
ghost use Rattle.repo_model.specs.State.{is_among};

use hosted_repo::{Hosted, Seen};
use outside::Held;
use proxy_rules::{Proxy, Rule};

/// The hosted repositories and the proxies, lent.
#[derive(Drop)]
pub struct Goods<'a, H: Held> {
    pub repos: &'a [Hosted<H>],
    pub proxies: &'a [Proxy<H>],
}

/// What is asked for at a moment, in seconds since 1970 in UTC: a path, where the remotes of these members of a group were tried
/// already.
#[derive(Drop)]
pub struct Asked<'a> {
    pub moment: u64,
    pub tried: &'a [u64],
    pub path: &'a str,
}

impl<'a> Asked<'a> {
    /// Whether the remote of a member was tried already.
    pub(crate) fn has_tried(&self, member: u64) -> bool
        ensures { result ≡ is_among member self.now.tried.now }
    {
        self.tried.contains(&member)
    }
}

/// What a repository of any kind has at a path.
#[derive(Drop)]
pub enum Looked<'a, H: Held> {
    /// This.
    Here(Seen<'a, H>),
    /// Nothing.
    Nothing,
    /// The remote of the proxy with this rule is to be asked for a file or a document. The proxy stands at this place of the group,
    /// or is asked itself, and then that is 0.
    Fetch {
        member: u64,
        rule: &'a Rule,
        path: &'a str,
        of_file: bool,
    },
    /// The proxy's patterns do not let the path through.
    Blocked,
    /// The proxy's remote had nothing there a short time ago.
    Negative,
    /// The proxy never asks its remote.
    Never,
}
