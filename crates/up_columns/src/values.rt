//! The JSON value of a column.
ghost use Rattle.std.specs.Prelude.{◌≡◌, ◌≢◌, ◌≤◌, ◌++◌, ◌∷◌, [], ℕ, List, codes, length, None, Ok, IfOk, IfSome, IsOkAnd, IsTrue, is_some, true};
ghost use Rattle.std.specs.List.{list_all};
ghost use Rattle.std.specs.Result.{IsOk};
ghost use Rattle.serde_json.specs.Data.{depth, string};
ghost use Rattle.serde_json.specs.View.{view};
ghost use Rattle.up_canon.specs.Build.{object_with};
ghost use Rattle.up_canon.specs.Canon.{has_canon, is_plain, text};
ghost use Rattle.up_canon.specs.JsonText.{value_within as value_within_of};
ghost use Rattle.up_canon.specs.Names.{is_file_byte};
ghost use Rattle.up_canon.specs.Refusals.{GivesAs};
ghost use Rattle.up_columns.specs.Plain.{HasNoPlainItem};

use serde_json::{Value, json};
use std::alloc::{AllocError, Global};
use up_canon::canonical_laws;
use up_canon::ident::is_ident_byte;
use up_canon::json_text::value_within;
use up_canon::refusal::Refusal;

/// The value that a column is read as. The reader of JSON clears 16 kB of room for each text, however short, so what most
/// columns are, the word `all` and lists of names and of a campaign's items, is told without it.
pub(crate) fn column_value(alloc: Global, column: &str) -> Result<Value, Refusal>
    ensures value { GivesAs view result (value_within_of (length column.now) column.now) }
    ensures empty { column.now ≡ codes "[]" → IsOk result }
{
    canonical_laws();
    match plain_value(alloc, column)? {
        Some(value) => Ok(value),
        None => {
            let bytes = column.as_bytes();
            value_within(alloc, bytes, bytes.len())
        }
    }
}

/// The value whose canonical text the column is, where it is one of those.
fn plain_value(alloc: Global, column: &str) -> Result<Option<Value>, AllocError>
    ensures value { IfOk result
        (λ found. IfSome found (λ value. (has_canon (view value) ≡ true) × (column.now ≡ text (view value)))) }
    ensures empty { column.now ≡ codes "[]" → IsOkAnd result (λ found. IsTrue (is_some found)) }
    ensures none { column.now ≢ codes "\"all\"" → ((rest : List ℕ) → column.now ≢ codes "[" ++ rest)
        → result ≡ Ok None }
    ensures list { (items : List ℕ) → column.now ≡ codes "[" ++ items → column.now ≢ codes "[]" → HasNoPlainItem items
        → result ≡ Ok None }
{
    if column == "[]" {
        return Ok(Some(Value::Array(Vec::new(alloc))));
    }
    if column == "\"all\"" {
        return Ok(Some(Value::try_from_str(alloc, "all")?));
    }
    match column.strip_prefix("[") {
        Some(items) => plain_list(alloc, items),
        None => Ok(None),
    }
}

/// The same of a list, behind its opening bracket.
fn plain_list(alloc: Global, items: &str) -> Result<Option<Value>, AllocError>
    ensures value { IfOk result
        (λ found. IfSome found (λ value. (has_canon (view value) ≡ true)
        × (codes "[" ++ items.now ≡ text (view value)))) }
    ensures none { HasNoPlainItem items.now → result ≡ Ok None }
{
    let mut values = Vec::new(alloc);
    let mut rest = items;
    'items: while let Some((value, behind)) = plain_item(alloc, rest)? {
        values.push(value)?;
        if behind == "]" {
            return Ok(Some(Value::Array(values)));
        }
        match behind.strip_prefix(",") {
            Some(more) => rest = more,
            None => return Ok(None),
        }
    }
    Ok(None)
}

/// The item of a list that the text begins with, and what stands behind it.
fn plain_item(alloc: Global, items: &str) -> Result<Option<(Value, &str)>, AllocError>
    ensures value { IfOk result
        (λ found. IfSome found (λ x. (is_plain (view x.0) ≡ true) × (depth (view x.0) ≤ 1)
        × (items.now ≡ text (view x.0) ++ x.1.now))) }
    ensures none { HasNoPlainItem items.now → result ≡ Ok None }
{
    if let Some(item) = items.strip_prefix("{\"file\":\"") {
        return plain_pair(alloc, item);
    }
    match items.strip_prefix("\"") {
        Some(name) => plain_name(alloc, name),
        None => Ok(None),
    }
}

/// A name, behind its opening quote.
fn plain_name(alloc: Global, items: &str) -> Result<Option<(Value, &str)>, AllocError>
    ensures { IfOk result
        (λ found. IfSome found (λ x. (is_plain (view x.0) ≡ true) × (depth (view x.0) ≤ 1)
        × (codes "\"" ++ items.now ≡ text (view x.0) ++ x.1.now))) }
{
    match name_before(items, "\"") {
        Some((name, behind)) => Ok(Some((Value::try_from_str(alloc, name)?, behind))),
        None => Ok(None),
    }
}

/// An item of a campaign, behind the opening quote of its filename.
fn plain_pair(alloc: Global, items: &str) -> Result<Option<(Value, &str)>, AllocError>
    ensures { IfOk result
        (λ found. IfSome found (λ x. (is_plain (view x.0) ≡ true) × (depth (view x.0) ≤ 1)
        × (codes "{\"file\":\"" ++ items.now ≡ text (view x.0) ++ x.1.now))) }
{
    let Some((file, more)) = name_before(items, "\",\"hardware\":\"") else {
        return Ok(None);
    };
    let Some((hardware, behind)) = name_before(more, "\"}") else {
        return Ok(None);
    };
    Ok(Some((pair_value(alloc, file, hardware)?, behind)))
}

fn pair_value(alloc: Global, file: &str, hardware: &str) -> Result<Value, AllocError>
    ensures { IfOk result
        (λ value. view value
        ≡ object_with ((codes "file", string file.now) ∷ (codes "hardware", string hardware.now) ∷ [])) }
{
    json!(in alloc; {"file": file, "hardware": hardware})
}

/// The name in front of a mark, and what stands behind the mark.
fn name_before<'a>(text: &'a str, mark: &str) -> Option<(&'a str, &'a str)>
    ensures { IfSome result (λ x. (text.now ≡ x.0.now ++ (mark.now ++ x.1.now))
        × (list_all is_file_byte x.0.now ≡ true)) }
{
    let (name, behind) = text.split_once(mark)?;
    if has_name_bytes(name) {
        Some((name, behind))
    } else {
        None
    }
}

fn has_name_bytes(text: &str) -> bool
    ensures { result ≡ list_all is_file_byte text.now }
{
    text.as_bytes()
        .iter()
        .all(|byte| is_ident_byte(*byte) || *byte == b'/')
}
