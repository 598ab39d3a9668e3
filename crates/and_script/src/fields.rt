//! The fields of an object, by a table.
ghost use Rattle.std.specs.Prelude.{◌≡◌, ◌&&◌, map, bytes_eq, option_map, Some};
ghost use Rattle.std.specs.List.{list_any};
ghost use Rattle.serde_json.specs.View.{view};
ghost use Rattle.serde_json.specs.Data.{Members};
ghost use Rattle.serde_json.specs.Find.{get, as_object};
ghost use Rattle.and_script.specs.Tables.{row_view};
ghost use Rattle.and_script.specs.Grammar.{found_or_left_out, fields_of, names_of_rows, members_given};
ghost use Rattle.and_script.specs.Answers.{Says, Adds, unknown_in, known_names, more_names};

use crate::forms::read_form;
use crate::refusal::Refusal;
use crate::tables::{Cause, Given, Row};
use serde_json::Value;
use std::alloc::Global;

/// What a field gives, or why not.
fn read_field(row: &Row, object: &Value) -> Result<Given, Cause>
    ensures { result ≡ found_or_left_out (row_view row.now) (get row.now.name.now (view object.now)) }
{
    match object.get(row.name) {
        Some(value) => read_form(row.form, value),
        None => match row.default {
            Some(given) => Ok(given),
            None => Err(Cause::Field),
        },
    }
}

/// What the fields of the rows give, in their order, behind the values.
fn read_rows(rows: &[Row], object: &Value, values: &mut Vec<Given>) -> Result<(), Refusal<'static>>
    ensures { Adds values.old.items values.new.items result (fields_of (map row_view rows.now) (view object.now)) }
{
    match rows {
        [] => Ok(()),
        [row, rest @ ..] => {
            let given = match read_field(row, object) {
                Ok(given) => given,
                Err(cause) => return Err(Refusal::At {
                    cause,
                    name: row.name,
                }),
            };
            match values.push(given) {
                Ok(()) => read_rows(rest, object, values),
                Err(_) => Err(Refusal::NoMemory),
            }
        }
    }
}

/// Whether a row has this name.
fn has_row(rows: &[Row], name: &str) -> bool
    ensures { result ≡ list_any (λ k. bytes_eq name.now k) (names_of_rows (map row_view rows.now)) }
{
    match rows {
        [] => false,
        [row, rest @ ..] => name == row.name || has_row(rest, name),
    }
}

fn is_known(item: bool, rows: &[Row], name: &str) -> bool
    ensures { result ≡ list_any (λ k. bytes_eq name.now k) (known_names item (map row_view rows.now)) }
{
    if item {
        name == "do" || has_row(rows, name)
    } else {
        has_row(rows, name)
    }
}

/// The first field name of the object, in byte order, that no row has. An item has `do` beside its rows.
fn first_unknown<'a>(item: bool, rows: &[Row], object: &'a Value) -> Option<&'a str>
    ensures { option_map (λ s. s.now) result ≡ unknown_in (known_names item (map row_view rows.now)) (as_object (view object.now)) }
{
    let fields = object.as_object()?;
    for (name, _) in fields.iter() {
        if !is_known(item, rows, name.as_str()) {
            return Some(name.as_str());
        }
    }
    None
}

/// What the fields of an object give by the rows of a table; a field that no row has comes first.
pub(crate) fn read_members<'a>(
    alloc: Global,
    item: bool,
    rows: &[Row],
    object: &'a Value,
) -> Result<Vec<Given>, Refusal<'a>>
    ensures { (fields : Members) → as_object (view object.now) ≡ Some fields
        → Says (λ v. v.items) result (members_given (more_names item) (map row_view rows.now) (view object.now) fields) }
{
    if let Some(name) = first_unknown(item, rows, object) {
        return Err(Refusal::At {
            cause: Cause::Unknown,
            name,
        });
    }
    let Ok(mut values) = Vec::with_capacity(alloc, rows.len()) else {
        return Err(Refusal::NoMemory);
    };
    match read_rows(rows, object, &mut values) {
        Ok(()) => Ok(values),
        Err(refusal) => Err(refusal),
    }
}
