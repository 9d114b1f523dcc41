//! The values of a TOML document at its keys.

ghost use Rattle.std.specs.Prelude.{◌≡◌, is_none, map, option_map, option_and_then};
ghost use Rattle.std.specs.List.{list_any};
ghost use Rattle.toml.specs.Data.{as_array, get};
ghost use Rattle.toml.specs.View.{array_view, view};
ghost use Rattle.config_format.specs.Document.{entries_in, is_no_list, is_no_name, is_without_entry, lacks, text_at};

use crate::name::is_name;
use toml::Value;
use toml::value::Array;

fn list_at<'a>(file: &'a Value, key: &str) -> Option<&'a Array>
    ensures { option_map (λ list. array_view list.now) result ≡ option_and_then as_array (get key.now (view file.now)) }
{
    match file.get(key) {
        Some(value) => value.as_array(),
        None => None,
    }
}

/// Whether no value is stated at a key.
pub fn is_absent(file: &Value, key: &str) -> bool
    ensures { result ≡ is_none (get key.now (view file.now)) }
{
    file.get(key).is_none()
}

/// The entries of a list, or none where there is no list.
pub fn entries<'a>(file: &'a Value, key: &str) -> &'a [Value]
    ensures { map view result.now ≡ entries_in (get key.now (view file.now)) }
{
    let Some(list) = list_at(file, key) else {
        return &[];
    };
    list.as_slice()
}

/// The text at a key, or an empty one where there is none.
pub fn text_at<'a>(entry: &'a Value, key: &str) -> &'a [u8]
    ensures { result.now ≡ text_at key.now (view entry.now) }
{
    match entry.get(key) {
        Some(Value::String(text)) => text.as_bytes(),
        _ => &[],
    }
}

/// Whether this is a table that lacks a key.
fn lacks(entry: &Value, key: &str) -> bool
    ensures { result ≡ lacks key.now (view entry.now) }
{
    entry.is_table() && entry.get(key).is_none()
}

fn any_lacks(list: &[Value], key: &str) -> bool
    ensures { result ≡ list_any (λ entry. lacks key.now (view entry)) list.now }
{
    list.iter().any(|entry| lacks(entry, key))
}

/// Whether an entry of a list is a table that lacks a key.
pub fn list_lacks(file: &Value, list: &str, key: &str) -> bool
    ensures { result ≡ list_any (lacks key.now) (entries_in (get list.now (view file.now))) }
{
    any_lacks(entries(file, list), key)
}

/// Whether a list is stated without an entry.
pub fn is_without_entry(file: &Value, key: &str) -> bool
    ensures { result ≡ is_without_entry (get key.now (view file.now)) }
{
    let Some(list) = list_at(file, key) else {
        return false;
    };
    list.as_slice().is_empty()
}

/// Whether a value is stated that is not a list.
pub fn is_no_list(file: &Value, key: &str) -> bool
    ensures { result ≡ is_no_list (get key.now (view file.now)) }
{
    match file.get(key) {
        Some(Value::Array(_)) | None => false,
        _ => true,
    }
}

/// Whether a value is stated that is not a name: not a text, or one of another form.
pub fn is_no_name(entry: &Value, key: &str) -> bool
    ensures { result ≡ is_no_name (get key.now (view entry.now)) }
{
    match entry.get(key) {
        Some(Value::String(text)) => !is_name(text.as_bytes()),
        None => false,
        _ => true,
    }
}
