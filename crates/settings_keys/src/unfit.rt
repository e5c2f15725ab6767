//! Which value of a table of settings does not fit its key.
ghost use Rattle.std.specs.Prelude.{◌≡◌, codes, is_some};
ghost use Rattle.std.specs.List.{list_all};
ghost use Rattle.std.specs.Option.{option_copied};
ghost use Rattle.toml.specs.Data.{as_table};
ghost use Rattle.toml.specs.View.{table_view, view};
ghost use Rattle.settings_keys.specs.Keys as spec;
ghost use Rattle.settings_keys.specs.Ids.{is_id};

use crate::forms::{is_host, is_id, is_prefix, is_update};
use crate::kinds::TableKind;
use crate::lists::{is_member_list, is_pattern_list};
use crate::values::{items_in, value_at};
use toml::{Table, Value};

/// The first key, in the order of bytes, whose value in the table does not fit.
pub(crate) fn unfit_in(kind: TableKind, table: &Table) -> Option<&'static str>
    ensures { option_copied result ≡ spec.unfit_in kind (table_view table.now) }
{
    match kind {
        TableKind::Top => unfit_in_document(table),
        TableKind::Hosted => unfit_in_hosted(table),
        TableKind::Proxy => unfit_in_proxy(table),
        TableKind::Group => unfit_in_group(table),
    }
}

fn unfit_in_document(document: &Table) -> Option<&'static str>
    ensures { option_copied result ≡ spec.unfit_in TableKind.Top (table_view document.now) }
{
    if !number_fits(document, "clean_seconds", 1, 86_400) {
        return Some("clean_seconds");
    }
    if !number_fits(document, "grace_seconds", 0, 31_536_000) {
        return Some("grace_seconds");
    }
    if !tables_fit(document, "group") {
        return Some("group");
    }
    if !tables_fit(document, "hosted") {
        return Some("hosted");
    }
    if !number_fits(document, "max_file", 1, 4_294_967_295) {
        return Some("max_file");
    }
    if !tables_fit(document, "proxy") {
        return Some("proxy");
    }
    None
}

fn unfit_in_hosted(table: &Table) -> Option<&'static str>
    ensures { option_copied result ≡ spec.unfit_in TableKind.Hosted (table_view table.now) }
{
    if !id_fits(table) {
        return Some("id");
    }
    if !number_fits(table, "keep_count", 1, 1_000) {
        return Some("keep_count");
    }
    if !number_fits(table, "keep_days", 0, 36_500) {
        return Some("keep_days");
    }
    if !releases_fit(table) {
        return Some("releases");
    }
    if !flag_fits(table, "snapshots") {
        return Some("snapshots");
    }
    None
}

fn unfit_in_proxy(table: &Table) -> Option<&'static str>
    ensures { option_copied result ≡ spec.unfit_in TableKind.Proxy (table_view table.now) }
{
    if !patterns_fit(table, "allow") {
        return Some("allow");
    }
    if !patterns_fit(table, "block") {
        return Some("block");
    }
    if !host_fits(table) {
        return Some("host");
    }
    if !id_fits(table) {
        return Some("id");
    }
    if !number_fits(table, "negative_seconds", 0, 86_400) {
        return Some("negative_seconds");
    }
    if !number_fits(table, "port", 1, 65_535) {
        return Some("port");
    }
    if !prefix_fits(table) {
        return Some("prefix");
    }
    if !update_fits(table) {
        return Some("update");
    }
    None
}

fn unfit_in_group(table: &Table) -> Option<&'static str>
    ensures { option_copied result ≡ spec.unfit_in TableKind.Group (table_view table.now) }
{
    if !id_fits(table) {
        return Some("id");
    }
    if !members_fit(table) {
        return Some("members");
    }
    None
}

fn number_fits(table: &Table, name: &str, low: u64, high: u64) -> bool
    ensures { result ≡ spec.passes (spec.is_number low high) name.now (table_view table.now) }
{
    match value_at(table, name) {
        Some(value) => is_within(value.as_integer(), low, high),
        None => true,
    }
}

fn is_within(number: Option<i64>, low: u64, high: u64) -> bool
    ensures { result ≡ spec.is_within low high number }
{
    match number {
        Some(number) if number >= 0 => low <= number as u64 && number as u64 <= high,
        _ => false,
    }
}

fn flag_fits(table: &Table, name: &str) -> bool
    ensures { result ≡ spec.passes spec.is_flag name.now (table_view table.now) }
{
    match value_at(table, name) {
        Some(value) => value.is_bool(),
        None => true,
    }
}

fn releases_fit(table: &Table) -> bool
    ensures { result ≡ spec.releases_fit (table_view table.now) }
{
    if !flag_fits(table, "releases") {
        return false;
    }
    !(is_off(table, "releases") && is_off(table, "snapshots"))
}

fn is_off(table: &Table, name: &str) -> bool
    ensures { result ≡ spec.is_off name.now (table_view table.now) }
{
    match value_at(table, name) {
        Some(value) => value.as_bool() == Some(false),
        None => false,
    }
}

fn id_fits(table: &Table) -> bool
    ensures { result ≡ spec.passes (spec.is_text is_id) (codes "id") (table_view table.now) }
{
    match value_at(table, "id") {
        Some(value) => value.as_str().is_some_and(is_id),
        None => true,
    }
}

fn host_fits(table: &Table) -> bool
    ensures { result ≡ spec.passes (spec.is_text spec.is_host) (codes "host") (table_view table.now) }
{
    match value_at(table, "host") {
        Some(value) => value.as_str().is_some_and(is_host),
        None => true,
    }
}

fn prefix_fits(table: &Table) -> bool
    ensures { result ≡ spec.passes (spec.is_text spec.is_prefix) (codes "prefix") (table_view table.now) }
{
    match value_at(table, "prefix") {
        Some(value) => value.as_str().is_some_and(is_prefix),
        None => true,
    }
}

fn update_fits(table: &Table) -> bool
    ensures { result ≡ spec.passes (spec.is_text spec.is_update) (codes "update") (table_view table.now) }
{
    match value_at(table, "update") {
        Some(value) => value.as_str().is_some_and(is_update),
        None => true,
    }
}

fn patterns_fit(table: &Table, name: &str) -> bool
    ensures { result ≡ spec.passes (spec.are_texts spec.is_pattern_list) name.now (table_view table.now) }
{
    match value_at(table, name) {
        Some(value) => is_pattern_list(value),
        None => true,
    }
}

fn members_fit(table: &Table) -> bool
    ensures { result ≡ spec.passes (spec.are_texts spec.is_member_list) (codes "members") (table_view table.now) }
{
    match value_at(table, "members") {
        Some(value) => is_member_list(value),
        None => true,
    }
}

fn tables_fit(document: &Table, name: &str) -> bool
    ensures { result ≡ spec.passes spec.are_tables name.now (table_view document.now) }
{
    match value_at(document, name) {
        Some(value) => is_table_array(value),
        None => true,
    }
}

fn is_table_array(value: &Value) -> bool
    ensures { result ≡ spec.are_tables (view value.now) }
{
    if !value.is_array() {
        return false;
    }
    are_tables(items_in(value))
}

fn are_tables(items: &[Value]) -> bool
    ensures { result ≡ list_all (λ item. is_some (as_table (view item))) items.now }
{
    items.iter().all(|item| item.is_table())
}
