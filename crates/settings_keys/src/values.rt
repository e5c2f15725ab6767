//! What stands at a key of a table of settings.
ghost use Rattle.std.specs.Prelude.{◌≡◌, ◌≤◌, map};
ghost use Rattle.std.specs.Option.{option_map};
ghost use Rattle.toml.specs.Data.{get_member};
ghost use Rattle.toml.specs.View.{table_view, view};
ghost use Rattle.settings_keys.specs.Values as spec;

use toml::{Table, Value};

/// The value at a key.
pub fn value_at<'a>(table: &'a Table, name: &str) -> Option<&'a Value>
    ensures { option_map (λ v. view v.now) result ≡ get_member name.now (table_view table.now) }
{
    table.get(name)
}

/// The items of the array at a key; none where it is missing or no array.
pub fn items_at<'a>(table: &'a Table, name: &str) -> &'a [Value]
    ensures { map view result.now ≡ spec.items_at name.now (table_view table.now) }
{
    match value_at(table, name) {
        Some(value) => items_in(value),
        None => &[],
    }
}

/// The items of an array; none of another value.
pub fn items_in(value: &Value) -> &[Value]
    ensures { map view result.now ≡ spec.items_in (view value.now) }
{
    match value.as_array() {
        Some(items) => items.as_slice(),
        None => &[],
    }
}

/// The string at a key, or `missing`.
pub fn text_at<'a>(table: &'a Table, name: &str, missing: &'a str) -> &'a str
    ensures { result.now ≡ spec.text_at name.now missing.now (table_view table.now) }
{
    match value_at(table, name) {
        Some(value) => value.as_str().unwrap_or(missing),
        None => missing,
    }
}

/// The whole number at a key, from `low` to `high`, or `missing`.
pub fn number_at(table: &Table, name: &str, low: u64, high: u64, missing: u64) -> u64
    requires { missing ≤ high }
    ensures value { result ≡ spec.number_at name.now low high missing (table_view table.now) }
    ensures range { result ≤ high }
{
    match value_at(table, name) {
        Some(value) => natural_within(value.as_integer(), low, high, missing),
        None => missing,
    }
}

fn natural_within(number: Option<i64>, low: u64, high: u64, missing: u64) -> u64
    requires { missing ≤ high }
    ensures value { result ≡ spec.natural_within low high missing number }
    ensures range { result ≤ high }
{
    match number {
        Some(number) if number >= 0 && low <= number as u64 && number as u64 <= high => {
            number as u64
        }
        _ => missing,
    }
}

/// The flag at a key, or false.
pub fn flag_at(table: &Table, name: &str) -> bool
    ensures { result ≡ spec.flag_at name.now (table_view table.now) }
{
    match value_at(table, name) {
        Some(value) => value.as_bool().unwrap_or(false),
        None => false,
    }
}
