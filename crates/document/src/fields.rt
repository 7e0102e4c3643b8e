//! Fields of a document's parts, by their kinds.
ghost use Rattle.std.specs.Prelude.{◌≡◌};
ghost use Rattle.std.specs.Option.{option_copied};
ghost use Rattle.toml.specs.{Data.get, View.view, View.array_view, View.table_view};
ghost use Rattle.document.specs.{Errors.Gives, Words.natural, Fields.text_in, Fields.whole_in, Fields.list_in, Fields.table_in, Fields.needed_text, Fields.needed_whole, Fields.optional, Fields.paired};

use crate::error::{Flaw, Part, Place, PlanError};
use toml::value::Array;
use toml::{Table, Value};

const A_TEXT: &str = "a text";

const A_WHOLE: &str = "a whole number";

const A_LIST: &str = "a list";

const A_TABLE: &str = "a table of fields";

/// The text that the value is.
pub(crate) fn text_in(value: &Value, at: Place) -> Result<&str, PlanError>
    ensures { Gives (λ s. s.now) result (text_in (view value.now)) }
{
    match value.as_str() {
        Some(text) => Ok(text),
        None => Err(PlanError::At(Flaw::TypeMismatch, at.expects(A_TEXT))),
    }
}

/// The whole number that the value is; 0 for a negative one.
#[tactic(auto, unfolding(crate::specs::Fields::whole_in))]
pub(crate) fn whole_in(value: &Value, at: Place) -> Result<usize, PlanError>
    ensures { Gives (λ n. n) result (whole_in (view value.now)) }
{
    match value.as_integer() {
        Some(number) => Ok(natural(number)),
        None => Err(PlanError::At(Flaw::TypeMismatch, at.expects(A_WHOLE))),
    }
}

/// The number, or 0 for a negative one.
fn natural(number: i64) -> usize
    ensures { result ≡ natural number }
{
    if number < 0 { 0 } else { number as usize }
}

/// The list that the value is.
pub(crate) fn list_in(value: &Value, at: Place) -> Result<&Array, PlanError>
    ensures { Gives (λ v. array_view v.now) result (list_in (view value.now)) }
{
    match value.as_array() {
        Some(list) => Ok(list),
        None => Err(PlanError::At(Flaw::TypeMismatch, at.expects(A_LIST))),
    }
}

/// The table that the value is.
pub(crate) fn table_in(value: &Value, at: Place) -> Result<&Table, PlanError>
    ensures { Gives (λ m. table_view m.now) result (table_in (view value.now)) }
{
    match value.as_table() {
        Some(table) => Ok(table),
        None => Err(PlanError::At(Flaw::TypeMismatch, at.expects(A_TABLE))),
    }
}

/// The text at a field that is needed.
pub(crate) fn text<'a>(
    member: &'a Value,
    part: Part,
    field: &'static str,
) -> Result<&'a str, PlanError>
    ensures { Gives (λ s. s.now) result (needed_text field.now (view member.now)) }
{
    match member.get(field) {
        Some(value) => text_in(value, part.field(field)),
        None => Err(PlanError::At(Flaw::MissingField, part.field(field).expects(A_TEXT))),
    }
}

/// The whole number at a field that is needed.
pub(crate) fn whole(member: &Value, part: Part, field: &'static str) -> Result<usize, PlanError>
    ensures { Gives (λ n. n) result (needed_whole field.now (view member.now)) }
{
    match member.get(field) {
        Some(value) => whole_in(value, part.field(field)),
        None => Err(PlanError::At(Flaw::MissingField, part.field(field).expects(A_WHOLE))),
    }
}

/// The whole number at a field, or the default.
pub(crate) fn whole_or(
    default: usize,
    member: &Value,
    part: Part,
    field: &'static str,
) -> Result<usize, PlanError>
    ensures { Gives (λ n. n) result (optional default whole_in (get field.now (view member.now))) }
{
    match member.get(field) {
        Some(value) => whole_in(value, part.field(field)),
        None => Ok(default),
    }
}

/// The text at a field that is there exactly if its partner is.
pub(crate) fn paired<'a>(
    member: &'a Value,
    part: Part,
    field: &'static str,
    partner: &'static str,
) -> Result<Option<&'a str>, PlanError>
    ensures { Gives option_copied result (paired (get field.now (view member.now))
        (get partner.now (view member.now))) }
{
    match member.get(field) {
        Some(value) => Ok(Some(text_in(value, part.field(field))?)),
        None => match member.get(partner) {
            Some(_) => Err(PlanError::At(Flaw::MissingField, part.field(field).expects(A_TEXT))),
            None => Ok(None),
        },
    }
}
