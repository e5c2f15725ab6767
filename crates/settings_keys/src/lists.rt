//! Arrays of strings: lists of patterns, and the members of a group.
ghost use Rattle.std.specs.Prelude.{◌≡◌, [], ◌&&◌, MatchOption, false, is_none, is_some, map, nat_le, true};
ghost use Rattle.std.specs.List.{filter_map, list_all, list_any};
ghost use Rattle.std.specs.Option.{option_map_or};
ghost use Rattle.std.specs.Str.{bytes_eq};
ghost use Rattle.toml.specs.Data.{as_str};
ghost use Rattle.toml.specs.View.{view};
ghost use Rattle.path_patterns.specs.Pattern.{is_pattern};
ghost use Rattle.settings_keys.specs.Keys as spec;
ghost use Rattle.settings_keys.specs.Ids.{first_twice, is_among, is_id};
ghost use Rattle.settings_keys.specs.Values.{items_in};

use crate::forms::is_id;
use crate::values::items_in;
use path_patterns::is_pattern;
use toml::Value;

/// Whether a value is an array of at most 100 patterns.
pub(crate) fn is_pattern_list(value: &Value) -> bool
    ensures { result ≡ spec.are_texts spec.is_pattern_list (view value.now) }
{
    match strings_in(value) {
        Some(items) => items.len() <= 100 && are_patterns(items),
        None => false,
    }
}

/// Whether a value is an array of 1 to 16 ids, none of them twice.
pub(crate) fn is_member_list(value: &Value) -> bool
    ensures { result ≡ spec.are_texts spec.is_member_list (view value.now) }
{
    let Some(items) = strings_in(value) else {
        return false;
    };
    if !is_member_count(items.len()) {
        return false;
    }
    if !are_ids(items) {
        return false;
    }
    are_distinct(items)
}

fn is_member_count(count: usize) -> bool
    ensures { result ≡ (nat_le 1 count && nat_le count 16) }
{
    1 <= count && count <= 16
}

/// The items of an array of strings alone.
fn strings_in(value: &Value) -> Option<&[Value]>
    ensures { MatchOption result (spec.is_text_array (view value.now) ≡ false)
        (λ items. (map view items.now ≡ items_in (view value.now)) × (spec.is_text_array (view value.now) ≡ true)) }
{
    if !value.is_array() {
        return None;
    }
    let items = items_in(value);
    if !are_strings(items) {
        return None;
    }
    Some(items)
}

fn are_strings(items: &[Value]) -> bool
    ensures { result ≡ list_all (λ item. is_some (as_str (view item))) items.now }
{
    items.iter().all(|item| item.is_str())
}

fn are_patterns(items: &[Value]) -> bool
    ensures { result ≡ list_all (λ item. option_map_or is_pattern (as_str (view item)) true) items.now }
{
    items.iter().all(is_pattern_or_none)
}

fn is_pattern_or_none(item: &Value) -> bool
    ensures { result ≡ option_map_or is_pattern (as_str (view item.now)) true }
{
    match item.as_str() {
        Some(text) => is_pattern(text),
        None => true,
    }
}

fn are_ids(items: &[Value]) -> bool
    ensures { result ≡ list_all (λ item. option_map_or is_id (as_str (view item)) true) items.now }
{
    items.iter().all(is_id_or_none)
}

fn is_id_or_none(item: &Value) -> bool
    ensures { result ≡ option_map_or is_id (as_str (view item.now)) true }
{
    match item.as_str() {
        Some(text) => is_id(text),
        None => true,
    }
}

fn are_distinct(items: &[Value]) -> bool
    ensures { result ≡ is_none (first_twice [] (filter_map as_str (map view items.now))) }
{
    for (index, item) in items.iter().enumerate() {
        if is_again(&items[..index], item) {
            return false;
        }
    }
    true
}

fn is_again(items: &[Value], item: &Value) -> bool
    ensures { result
        ≡ option_map_or (is_among (filter_map as_str (map view items.now))) (as_str (view item.now)) false }
{
    match item.as_str() {
        Some(text) => is_among(items, text),
        None => false,
    }
}

fn is_among(items: &[Value], text: &str) -> bool
    ensures { result ≡ list_any (λ item. option_map_or (λ other. bytes_eq other text.now) (as_str (view item)) false) items.now }
{
    items.iter().any(|item| is_text(item, text))
}

fn is_text(item: &Value, text: &str) -> bool
    ensures { result ≡ option_map_or (λ other. bytes_eq other text.now) (as_str (view item.now)) false }
{
    match item.as_str() {
        Some(other) => other == text,
        None => false,
    }
}
