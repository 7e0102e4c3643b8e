//! Reading the parts of a document: the fields pass, which makes a draft.
ghost use Rattle.std.specs.Prelude.{◌≡◌, codes};
ghost use Rattle.toml.specs.{View.view, View.items_view, Data.get};
ghost use Rattle.document.specs.{Errors.Gives, Words.side_columns, Words.right_side_columns, Fields.each, Fields.column_of, Fields.column_at, Fields.columns_at, Fields.table_at, Fields.tables_at, Fields.view_at, Fields.views_at, Fields.needed, Fields.draft_at};

use crate::error::{Flaw, Part, PlanError, Spot};
use crate::fields::{list_in, table_in, text, text_in, whole};
use crate::names::{
    TABLE_FIELDS, TOP_FIELDS, VIEW_FIELDS, column_of_both, column_place,
    columns_at as columns_there, has_only,
};
use crate::stage::stage;
use crate::word::kind_of;
use plan::draft::Draft;
use plan::plan::ViewPlan;
use plan::stage::Side;
use plan::table::{Column, Table};
use std::alloc::Global;
use toml::Value;

const A_COLUMN: &str = "texts, each a name, one space, and `int` or `text`";

const LISTED: &str = "only fields that recipes have";

/// The column that the text says: a name, one space, a kind.
fn column_of(alloc: Global, text: &str, part: Part) -> Result<Column, PlanError>
    ensures { Gives (λ c. c) result (column_of text.now) }
{
    if let Some((name, word)) = text.split_once(' ')
        && let Some(kind) = kind_of(word)
        && !name.is_empty()
    {
        return Ok(Column::new(alloc, name, kind)?);
    }
    Err(PlanError::At(Flaw::TypeMismatch, Spot::new(part, "columns", A_COLUMN)))
}

/// A column.
#[tactic(auto, unfolding(crate::specs::Fields::column_at))]
fn column_at(alloc: Global, value: &Value, part: Part) -> Result<Column, PlanError>
    ensures { Gives (λ c. c) result (column_at (view value.now)) }
{
    let text = text_in(value, part.field("columns"))?;
    column_of(alloc, text, part)
}

/// The columns of a list.
fn columns_of(alloc: Global, list: &[Value], part: Part) -> Result<Vec<Column>, PlanError>
    ensures { Gives (λ v. v.items) result (each column_at (items_view list.now)) }
{
    let mut columns = Vec::new(alloc);
    for value in list {
        columns.push(column_at(alloc, value, part)?)?;
    }
    Ok(columns)
}

/// The columns at the field of a table.
#[tactic(auto, unfolding(crate::specs::Fields::columns_at))]
fn columns_at(alloc: Global, value: &Value, part: Part) -> Result<Vec<Column>, PlanError>
    ensures { Gives (λ v. v.items) result (columns_at (view value.now)) }
{
    let list = list_in(value, part.field("columns"))?;
    columns_of(alloc, list, part)
}

/// A table; its key is the place of the column with that name.
#[tactic(auto, unfolding(crate::specs::Fields::table_at))]
fn table_at(alloc: Global, value: &Value, part: Part) -> Result<Table, PlanError>
    ensures { Gives (λ t. t) result (table_at (view value.now)) }
{
    let members = table_in(value, part.field("table"))?;
    let name = text(value, part, "name")?;
    let shards = whole(value, part, "shards")?;
    let key = text(value, part, "key")?;
    let columns = columns(alloc, value, part)?;
    if !has_only(members, &TABLE_FIELDS) {
        return Err(PlanError::At(Flaw::TypeMismatch, Spot::new(part, "table", LISTED)));
    }
    let place = column_place(&columns, key);
    let name = String::from_str(alloc, name)?;
    Ok(Table::new(name, shards, place, columns))
}

/// The columns of a table, which are needed.
fn columns(alloc: Global, member: &Value, part: Part) -> Result<Vec<Column>, PlanError>
    ensures { Gives (λ v. v.items) result (needed columns_at
        (get (codes "columns") (view member.now))) }
{
    match member.get("columns") {
        Some(value) => columns_at(alloc, value, part),
        None => Err(PlanError::At(Flaw::MissingField, Spot::new(part, "columns", A_COLUMN))),
    }
}

/// The tables of a list.
fn tables_of(alloc: Global, list: &[Value]) -> Result<Vec<Table>, PlanError>
    ensures { Gives (λ v. v.items) result (each table_at (items_view list.now)) }
{
    let mut tables = Vec::new(alloc);
    for (at, value) in list.iter().enumerate() {
        tables.push(table_at(alloc, value, Part::Table(at))?)?;
    }
    Ok(tables)
}

/// The tables of a document, which are needed.
fn tables(alloc: Global, document: &Value) -> Result<Vec<Table>, PlanError>
    ensures { Gives (λ v. v.items) result (needed tables_at
        (get (codes "table") (view document.now))) }
{
    match document.get("table") {
        Some(value) => tables_at(alloc, value),
        None => Err(PlanError::At(
            Flaw::MissingField,
            Spot::new(Part::Recipe, "table", "1 to 8 tables"),
        )),
    }
}

/// The tables that the value lists.
#[tactic(auto, unfolding(crate::specs::Fields::tables_at))]
fn tables_at(alloc: Global, value: &Value) -> Result<Vec<Table>, PlanError>
    ensures { Gives (λ v. v.items) result (tables_at (view value.now)) }
{
    let list = list_in(value, Part::Recipe.field("table"))?;
    tables_of(alloc, list)
}

/// A view; its key is a column of the left table or, behind those, of the right one.
#[tactic(auto, unfolding(crate::specs::Fields::view_at))]
fn view_at(
    alloc: Global,
    lefts: &[Column],
    rights: &[Column],
    value: &Value,
    part: Part,
) -> Result<ViewPlan, PlanError>
    ensures { Gives (λ v. v) result (view_at lefts.now rights.now (view value.now)) }
{
    let members = table_in(value, part.field("view"))?;
    let name = text(value, part, "name")?;
    let key = text(value, part, "key")?;
    let shards = whole(value, part, "shards")?;
    let cap = whole(value, part, "cap")?;
    if !has_only(members, &VIEW_FIELDS) {
        return Err(PlanError::At(Flaw::TypeMismatch, Spot::new(part, "view", LISTED)));
    }
    let place = column_of_both(lefts, rights, key);
    let name = String::from_str(alloc, name)?;
    Ok(ViewPlan::new(name, place, shards, cap))
}

/// The views of a list.
fn views_of(
    alloc: Global,
    lefts: &[Column],
    rights: &[Column],
    list: &[Value],
) -> Result<Vec<ViewPlan>, PlanError>
    ensures { Gives (λ v. v.items) result (each (view_at lefts.now rights.now)
        (items_view list.now)) }
{
    let mut views = Vec::new(alloc);
    for (at, value) in list.iter().enumerate() {
        views.push(view_at(alloc, lefts, rights, value, Part::View(at))?)?;
    }
    Ok(views)
}

/// The views that the value lists.
#[tactic(auto, unfolding(crate::specs::Fields::views_at))]
fn views_at(
    alloc: Global,
    lefts: &[Column],
    rights: &[Column],
    value: &Value,
) -> Result<Vec<ViewPlan>, PlanError>
    ensures { Gives (λ v. v.items) result (views_at lefts.now rights.now (view value.now)) }
{
    let list = list_in(value, Part::Recipe.field("view"))?;
    views_of(alloc, lefts, rights, list)
}

/// The views of a document, which are needed.
fn views(
    alloc: Global,
    lefts: &[Column],
    rights: &[Column],
    document: &Value,
) -> Result<Vec<ViewPlan>, PlanError>
    ensures { Gives (λ v. v.items) result (needed (views_at lefts.now rights.now)
        (get (codes "view") (view document.now))) }
{
    match document.get("view") {
        Some(value) => views_at(alloc, lefts, rights, value),
        None => Err(PlanError::At(
            Flaw::MissingField,
            Spot::new(Part::Recipe, "view", "1 to 4 views"),
        )),
    }
}

/// The columns of the side's table, if there is one.
fn side_columns<'a>(tables: &'a [Table], side: &Side) -> &'a [Column]
    ensures { result.now ≡ side_columns tables.now side.now }
{
    columns_there(tables, side.table())
}

/// The columns of the right side's table, if there is one.
fn right_side_columns<'a>(tables: &'a [Table], side: &Option<Side>) -> &'a [Column]
    ensures { result.now ≡ right_side_columns tables.now side.now }
{
    match side {
        Some(side) => side_columns(tables, side),
        None => &[],
    }
}

/// The draft that a document says, or its first fault: fields that are needed and absent (21), of
/// another kind, or that recipes do not have (23); or memory is refused. A name of a table or a
/// column is read as its place. Cost: a look at each field, and for each name one at each table or
/// column before it.
#[tactic(auto, unfolding(crate::specs::Fields::draft_at))]
pub fn draft_at(alloc: Global, document: &Value) -> Result<Draft, PlanError>
    ensures { Gives (λ d. d) result (draft_at (view document.now)) }
{
    let members = table_in(document, Part::Recipe.field("recipe"))?;
    let tables = tables(alloc, document)?;
    let stage = stage(alloc, &tables, document)?;
    let lefts = side_columns(&tables, &stage.left);
    let rights = right_side_columns(&tables, &stage.right);
    let views = views(alloc, lefts, rights, document)?;
    if !has_only(members, &TOP_FIELDS) {
        return Err(PlanError::At(
            Flaw::TypeMismatch,
            Spot::new(Part::Recipe, "recipe", LISTED),
        ));
    }
    Ok(Draft {
        tables,
        stages: stage.shards,
        left: stage.left,
        right: stage.right,
        aggregate: stage.aggregate,
        cap: stage.cap,
        views,
    })
}
