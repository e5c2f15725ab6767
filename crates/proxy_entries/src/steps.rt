//! What a proxy does about a path at which it keeps no file, by what it keeps of documents and negative entries.
ghost use Rattle.std.specs.Prelude.{◌≡◌, ◌≤◌, ℕ, List, IfSome};
ghost use Rattle.std.specs.Option.{option_map};
ghost use Rattle.repo_model.specs.Data.{Proxy};
ghost use Rattle.repo_model.specs.History.{latest_moment};
ghost use Rattle.repo_model.specs.Proxies as spec;
ghost use Rattle.proxy_entries.specs.Stored.{AreInTime, shown_documents, shown_negative, shown_negatives};

use crate::documents::find;
use crate::kept::Kept;
use crate::negatives::negative_at;
use repo_model::{Step, Update};
use std::collections::BTreeMap;

// Whether a document that was checked at a moment need not be asked for again.
fn is_fresh(update: Update, checked: u64, now: u64) -> bool
    requires { checked ≤ latest_moment }
    ensures { result ≡ spec.is_fresh update checked now }
{
    match update {
        Update::Always => false,
        Update::Hourly => now < checked + 3_600,
        Update::Daily => now < checked + 86_400,
        Update::Once => true,
        Update::Never => false,
    }
}

// Whether the remote is never asked.
fn asks_never(update: Update) -> bool
    ensures { result ≡ spec.asks_never update }
{
    match update {
        Update::Never => true,
        Update::Always => false,
        Update::Hourly => false,
        Update::Daily => false,
        Update::Once => false,
    }
}

// Whether the remote had nothing a short time ago.
fn is_fresh_negative(seconds: u64, known_missing: Option<u64>, now: u64) -> bool
    requires few { seconds ≤ 86400 }
    requires timely { IfSome known_missing (λ m. m ≤ latest_moment) }
    ensures { (path : List ℕ) → result ≡ spec.is_fresh_negative seconds now (option_map (shown_negative path) known_missing) }
{
    match known_missing {
        Some(moment) => now < moment + seconds,
        None => false,
    }
}

/// What a proxy does about a path at a moment where nothing that may be answered stands there, its remote being tried already or
/// not: by how often it asks again, for how many seconds what the remote lacked counts as missing, and its negative entries.
pub fn step_out(
    update: Update,
    seconds: u64,
    negatives: &BTreeMap<String, u64>,
    path: &str,
    now: u64,
    tried: bool,
) -> Step
    requires few { seconds ≤ 86400 }
    requires timely { AreInTime (shown_negatives negatives.now.entries) }
    ensures { (p : Proxy) → p.rule.update ≡ update → p.rule.negative_seconds ≡ seconds → p.negatives ≡ shown_negatives negatives.now.entries
        → result ≡ spec.step_out p now tried path.now }
{
    if tried {
        return Step::Missed;
    }
    if asks_never(update) {
        return Step::Never;
    }
    if is_fresh_negative(seconds, negative_at(negatives, path), now) {
        return Step::Negative;
    }
    Step::Fetch
}

// A stale document is answered unless the remote is asked.
fn instead(out: Step) -> Step
    ensures { result ≡ spec.instead out }
{
    match out {
        Step::Fetch => Step::Fetch,
        Step::Serve => Step::Serve,
        Step::Missed => Step::Serve,
        Step::Blocked => Step::Serve,
        Step::Negative => Step::Serve,
        Step::Never => Step::Serve,
    }
}

/// What a proxy does about the path of a document at a moment, `out` being what it does where nothing stands there: one that need
/// not be asked for again is answered, and another one too, unless the remote is asked.
pub fn document_step(
    update: Update,
    documents: &BTreeMap<String, Kept>,
    path: &str,
    now: u64,
    out: Step,
) -> Step
    ensures { (p : Proxy) → p.rule.update ≡ update → p.documents ≡ shown_documents documents.now.entries
        → result ≡ spec.document_step p now out (spec.kept_at path.now p.documents) }
{
    let Some(kept) = find(documents, path) else {
        return out;
    };
    if is_fresh(update, kept.checked, now) {
        return Step::Serve;
    }
    instead(out)
}
