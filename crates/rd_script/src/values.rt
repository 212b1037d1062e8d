//! The values of a file: their keys, numbers, names and arrays, or their first fault.

ghost use Rattle.std.specs.Prelude.{◌≡◌, ◌≤◌, length, option_map, IfOk};
ghost use Rattle.std.specs.List.{list_any};
ghost use Rattle.std.specs.Str.{bytes_eq};
ghost use Rattle.serde_json.specs.View.{view, items_view, members_view};
ghost use Rattle.rd_script.specs.Values.{Gives, array_in, array_or_empty, field, has_only};
ghost use Rattle.rd_script.specs.Values.{in_limits, number_in, number_or, new_name, object_with};
ghost use Rattle.rd_text.specs.Words.{texts};

use crate::error::AppError;
use rd_text::words::is_name;
use serde_json::{Map, Value};

// Does the name stand among these?
fn stands(name: &str, names: &[&str]) -> bool
    ensures { result ≡ list_any (bytes_eq name.now) (texts names.now) }
{
    for other in names {
        if name == *other {
            return true;
        }
    }
    false
}

fn has_only(members: &Map<String, Value>, known: &[&str]) -> bool
    ensures { result ≡ has_only (texts known.now) (members_view members.now.entries) }
{
    for key in members.keys() {
        if !stands(key.as_str(), known) {
            return false;
        }
    }
    true
}

/// An object with no other keys than these.
pub(crate) fn object_with(value: &Value, known: &[&str]) -> Result<(), AppError>
    ensures { result ≡ object_with (texts known.now) (view value.now) }
{
    match value.as_object() {
        Some(members) if has_only(members, known) => Ok(()),
        _ => Err(AppError::Shape),
    }
}

/// What stands at a key.
pub(crate) fn field<'a>(value: &'a Value, key: &str) -> Result<&'a Value, AppError>
    ensures { Gives (λ value. view value.now) result (field key.now (view value.now)) }
{
    value.get(key).ok_or(AppError::Shape)
}

/// A number within these limits.
pub(crate) fn number(value: &Value, least: u64, most: u64) -> Result<u64, AppError>
    ensures { result ≡ number_in least most (view value.now) }
{
    in_limits(value.as_u64().ok_or(AppError::Shape)?, least, most)
}

/// The same of a key that may be left out.
pub(crate) fn number_or(
    value: Option<&Value>,
    otherwise: u64,
    least: u64,
    most: u64,
) -> Result<u64, AppError>
    ensures { result
        ≡ number_or otherwise least most (option_map (λ value. view value.now) value.entry) }
{
    match value {
        None => Ok(otherwise),
        Some(value) => number(value, least, most),
    }
}

fn in_limits(number: u64, least: u64, most: u64) -> Result<u64, AppError>
    ensures { result ≡ in_limits least most number }
{
    if least <= number && number <= most {
        Ok(number)
    } else {
        Err(AppError::Limit)
    }
}

/// An array with at least and at most so many values.
#[tactic(auto, using(crate::proofs::FileLemmas::items_count))]
pub(crate) fn array(value: &Value, least: usize, most: usize) -> Result<&[Value], AppError>
    ensures values { Gives (λ values. items_view values.now)
        result (array_in least most (view value.now)) }
    ensures few { IfOk result (λ values. length values.now ≤ most) }
{
    let values = value.as_array().ok_or(AppError::Shape)?;
    in_limits(values.len() as u64, least as u64, most as u64)?;
    Ok(values.as_slice())
}

/// An array with at most so many values, or none where its key is left out.
pub(crate) fn array_or_empty(value: Option<&Value>, most: usize) -> Result<&[Value], AppError>
    ensures values { Gives (λ values. items_view values.now)
        result (array_or_empty most (option_map (λ value. view value.now) value.entry)) }
    ensures few { IfOk result (λ values. length values.now ≤ most) }
{
    match value {
        None => Ok(&[]),
        Some(value) => array(value, 0, most),
    }
}

/// A name that is none of those before it.
pub(crate) fn new_name<'a>(value: &'a Value, names: &[&str]) -> Result<&'a str, AppError>
    ensures { Gives (λ name. name.now) result (new_name (texts names.now) (view value.now)) }
{
    let name = value.as_str().ok_or(AppError::Shape)?;
    if !is_name(name.as_bytes()) || stands(name, names) {
        return Err(AppError::Name);
    }
    Ok(name)
}
