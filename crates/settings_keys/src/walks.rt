//! The walks over the tables of settings: for unknown keys, for missing ones, for values that don't fit.
ghost use Rattle.std.specs.Prelude.{◌≡◌, map};
ghost use Rattle.std.specs.List.{filter_map};
ghost use Rattle.std.specs.Option.{option_and_then, option_copied};
ghost use Rattle.toml.specs.Data.{as_table};
ghost use Rattle.toml.specs.View.{table_view, view};
ghost use Rattle.settings_keys.specs.Keys as keys;
ghost use Rattle.settings_keys.specs.Walks as spec;

use crate::kinds::{TableKind, Walk};
use crate::unfit::unfit_in;
use crate::values::{items_at, value_at};
use toml::{Table, Value};

/// The first key that the walk finds fault with: in the document, then in the hosted repositories, the proxies and the
/// groups, each in the order written, and in a table in the order of bytes.
pub fn first_fault(walk: Walk, document: &Table) -> Option<&str>
    ensures { option_copied result ≡ spec.first_fault walk (table_view document.now) }
{
    if let Some(key) = fault_in(walk, TableKind::Top, document) {
        return Some(key);
    }
    if let Some(key) = fault_among(walk, TableKind::Hosted, items_at(document, "hosted")) {
        return Some(key);
    }
    if let Some(key) = fault_among(walk, TableKind::Proxy, items_at(document, "proxy")) {
        return Some(key);
    }
    fault_among(walk, TableKind::Group, items_at(document, "group"))
}

fn fault_among(walk: Walk, kind: TableKind, items: &[Value]) -> Option<&str>
    ensures { option_copied result ≡ spec.fault_among walk kind (filter_map as_table (map view items.now)) }
{
    for item in items {
        if let Some(key) = fault_of(walk, kind, item) {
            return Some(key);
        }
    }
    None
}

/// The first fault of an item that is a table.
fn fault_of(walk: Walk, kind: TableKind, item: &Value) -> Option<&str>
    ensures { option_copied result ≡ option_and_then (spec.fault_in walk kind) (as_table (view item.now)) }
{
    match item.as_table() {
        Some(table) => fault_in(walk, kind, table),
        None => None,
    }
}

fn fault_in(walk: Walk, kind: TableKind, table: &Table) -> Option<&str>
    ensures { option_copied result ≡ spec.fault_in walk kind (table_view table.now) }
{
    match walk {
        Walk::Unknown => unknown_in(kind, table),
        Walk::Missing => missing_in(kind, table),
        Walk::Unfit => unfit_in(kind, table),
    }
}

/// The first name in a table that is no key of it.
fn unknown_in(kind: TableKind, table: &Table) -> Option<&str>
    ensures { option_copied result ≡ keys.unknown_in kind (table_view table.now) }
{
    'names: for (name, _) in table {
        if !is_known(kind, name.as_str()) {
            return Some(name.as_str());
        }
    }
    None
}

fn is_known(kind: TableKind, name: &str) -> bool
    ensures { result ≡ keys.is_known kind name.now }
{
    match kind {
        TableKind::Top => is_known_in_document(name),
        TableKind::Hosted => is_known_in_hosted(name),
        TableKind::Proxy => is_known_in_proxy(name),
        TableKind::Group => name == "id" || name == "members",
    }
}

fn is_known_in_document(name: &str) -> bool
    ensures { result ≡ keys.is_known TableKind.Top name.now }
{
    name == "clean_seconds"
        || name == "grace_seconds"
        || name == "group"
        || name == "hosted"
        || name == "max_file"
        || name == "proxy"
}

fn is_known_in_hosted(name: &str) -> bool
    ensures { result ≡ keys.is_known TableKind.Hosted name.now }
{
    name == "id"
        || name == "keep_count"
        || name == "keep_days"
        || name == "releases"
        || name == "snapshots"
}

fn is_known_in_proxy(name: &str) -> bool
    ensures { result ≡ keys.is_known TableKind.Proxy name.now }
{
    name == "allow"
        || name == "block"
        || name == "host"
        || name == "id"
        || name == "negative_seconds"
        || name == "port"
        || name == "prefix"
        || name == "update"
}

/// The first required key that a table lacks.
fn missing_in(kind: TableKind, table: &Table) -> Option<&'static str>
    ensures { option_copied result ≡ keys.missing_in kind (table_view table.now) }
{
    match kind {
        TableKind::Top => None,
        TableKind::Hosted => missing_in_hosted(table),
        TableKind::Proxy => first_missing(table, "host", "id"),
        TableKind::Group => first_missing(table, "id", "members"),
    }
}

fn missing_in_hosted(table: &Table) -> Option<&'static str>
    ensures { option_copied result ≡ keys.missing_in TableKind.Hosted (table_view table.now) }
{
    if value_at(table, "id").is_none() {
        return Some("id");
    }
    first_missing(table, "releases", "snapshots")
}

/// The first of two keys that a table lacks.
fn first_missing(table: &Table, first: &'static str, second: &'static str) -> Option<&'static str>
    ensures { option_copied result ≡ keys.first_missing first.now second.now (table_view table.now) }
{
    if value_at(table, first).is_none() {
        return Some(first);
    }
    if value_at(table, second).is_none() {
        return Some(second);
    }
    None
}
