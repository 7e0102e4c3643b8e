//! Reading the stage of a document, and its conditions.
ghost use Rattle.std.specs.Prelude.{◌≡◌, [], None, codes, option_map};
ghost use Rattle.std.specs.Option.{option_copied};
ghost use Rattle.document.specs.{Errors.Gives, Words.columns_of, Fields.each, Fields.needed, Fields.optional, Fields.op_at, Fields.value_at, Fields.condition_at, Fields.conditions_at, Fields.word_at, Fields.aggregate_of, Fields.right_conditions, Fields.right_columns, Fields.told_columns, Fields.side_of, Fields.right_side, Fields.stage_at};
ghost use Rattle.toml.specs.{Data.get, View.view, View.items_view};
ghost use Rattle.row.specs.Cells.{datum_of};

use crate::error::{Flaw, Part, PlanError, Spot};
use crate::fields::{list_in, paired, table_in, text, text_in, whole, whole_or};
use crate::names::{
    CONDITION_FIELDS, STAGE_FIELDS, column_place, columns_at, has_only, table_place,
};
use crate::word::{Word, op_of, word_of};
use plan::kinds::{Aggregate, Op};
use plan::stage::{Condition, Side};
use plan::table::{Column, Table};
use row::value::Value as Cell;
use std::alloc::Global;
use std::marker::Model;
use toml::Value;

const AN_OP: &str = "one of `=`, `!=`, `<`, `<=`, `>`, `>=`";

const A_VALUE: &str = "a whole number or a text";

const A_WORD: &str = "`count` or `sum`";

const A_SUM: &str = "a column, exactly with `aggregate = \"sum\"`";

const LISTED: &str = "only fields that recipes have";

/// The comparison that the value names.
#[tactic(auto, unfolding(crate::specs::Fields::op_at))]
fn op_at(value: &Value, part: Part) -> Result<Op, PlanError>
    ensures { Gives (λ o. o) result (op_at (view value.now)) }
{
    let word = text_in(value, part.field("op"))?;
    match op_of(word) {
        Some(op) => Ok(op),
        None => Err(PlanError::At(Flaw::TypeMismatch, Spot::new(part, "op", AN_OP))),
    }
}

/// The comparison of a condition, which is needed.
fn op(member: &Value, part: Part) -> Result<Op, PlanError>
    ensures { Gives (λ o. o) result (needed op_at (get (codes "op") (view member.now))) }
{
    match member.get("op") {
        Some(value) => op_at(value, part),
        None => Err(PlanError::At(Flaw::MissingField, Spot::new(part, "op", AN_OP))),
    }
}

/// The number or the text that the value is.
fn value_at(alloc: Global, value: &Value, part: Part) -> Result<Cell, PlanError>
    ensures { Gives datum_of result (value_at (view value.now)) }
{
    if let Some(text) = value.as_str() {
        return Ok(Cell::text(alloc, text)?);
    }
    match value.as_integer() {
        Some(number) => Ok(Cell::Int(number)),
        None => Err(PlanError::At(Flaw::TypeMismatch, Spot::new(part, "value", A_VALUE))),
    }
}

/// The value of a condition, which is needed.
fn value(alloc: Global, member: &Value, part: Part) -> Result<Cell, PlanError>
    ensures { Gives datum_of result (needed value_at (get (codes "value") (view member.now))) }
{
    match member.get("value") {
        Some(value) => value_at(alloc, value, part),
        None => Err(PlanError::At(Flaw::MissingField, Spot::new(part, "value", A_VALUE))),
    }
}

/// A condition on one of these columns.
#[tactic(auto, unfolding(crate::specs::Fields::condition_at))]
fn condition_at(
    alloc: Global,
    columns: &[Column],
    member: &Value,
    part: Part,
) -> Result<Condition, PlanError>
    ensures { Gives (λ c. c) result (condition_at columns.now (view member.now)) }
{
    let members = table_in(member, part.field("condition"))?;
    let column = text(member, part, "column")?;
    let op = op(member, part)?;
    let value = value(alloc, member, part)?;
    if !has_only(members, &CONDITION_FIELDS) {
        return Err(PlanError::At(Flaw::TypeMismatch, Spot::new(part, "condition", LISTED)));
    }
    Ok(Condition::new(column_place(columns, column), op, value))
}

/// A side of the stage: the name of its conditions' field, and what a condition of it is called.
#[derive(Clone, Copy)]
enum Way {
    Left,
    Right,
}

impl Way {
    fn part(self, at: usize) -> Part {
        match self {
            Way::Left => Part::LeftCondition(at),
            Way::Right => Part::RightCondition(at),
        }
    }

    fn field(self) -> &'static str {
        match self {
            Way::Left => "left_where",
            Way::Right => "right_where",
        }
    }
}

/// The conditions of a list.
fn conditions_of(
    alloc: Global,
    columns: &[Column],
    list: &[Value],
    way: Way,
) -> Result<Vec<Condition>, PlanError>
    ensures { Gives (λ v. v.items) result (each (condition_at columns.now) (items_view list.now)) }
{
    let mut conditions = Vec::new(alloc);
    for (at, value) in list.iter().enumerate() {
        conditions.push(condition_at(alloc, columns, value, way.part(at))?)?;
    }
    Ok(conditions)
}

/// The conditions that the value lists.
#[tactic(auto, unfolding(crate::specs::Fields::conditions_at))]
fn conditions_at(
    alloc: Global,
    columns: &[Column],
    value: &Value,
    way: Way,
) -> Result<Vec<Condition>, PlanError>
    ensures { Gives (λ v. v.items) result (conditions_at columns.now (view value.now)) }
{
    let list = list_in(value, Part::Stage.field(way.field()))?;
    conditions_of(alloc, columns, list, way)
}

/// The conditions of the left side, if there are any.
fn left_where(alloc: Global, columns: &[Column], stage: &Value) -> Result<Vec<Condition>, PlanError>
    ensures { Gives (λ v. v.items) result (optional [] (conditions_at columns.now)
        (get (codes "left_where") (view stage.now))) }
{
    match stage.get("left_where") {
        Some(value) => conditions_at(alloc, columns, value, Way::Left),
        None => Ok(Vec::new(alloc)),
    }
}

/// The conditions of the right side, if there are any; there are none without a right side.
fn right_where(
    alloc: Global,
    columns: &[Column],
    right: Option<&str>,
    stage: &Value,
) -> Result<Vec<Condition>, PlanError>
    ensures { Gives (λ v. v.items) result (right_conditions columns.now (option_copied right.entry)
        (get (codes "right_where") (view stage.now))) }
{
    match stage.get("right_where") {
        None => Ok(Vec::new(alloc)),
        Some(value) => match right {
            Some(_) => conditions_at(alloc, columns, value, Way::Right),
            None => Err(PlanError::At(
                Flaw::TypeMismatch,
                Spot::new(Part::Stage, "right_where", "conditions only with `right`"),
            )),
        },
    }
}

/// The aggregate that the value names, without its column.
#[tactic(auto, unfolding(crate::specs::Fields::word_at))]
fn word_at(value: &Value) -> Result<Option<Word>, PlanError>
    ensures { Gives (λ w. w) result (word_at (view value.now)) }
{
    let text = text_in(value, Part::Stage.field("aggregate"))?;
    match word_of(text) {
        Some(word) => Ok(Some(word)),
        None => Err(PlanError::At(
            Flaw::TypeMismatch,
            Spot::new(Part::Stage, "aggregate", A_WORD),
        )),
    }
}

/// The aggregate that the stage names, if it names one, without its column.
fn word(stage: &Value) -> Result<Option<Word>, PlanError>
    ensures { Gives (λ w. w) result (optional None word_at
        (get (codes "aggregate") (view stage.now))) }
{
    match stage.get("aggregate") {
        Some(value) => word_at(value),
        None => Ok(None),
    }
}

/// The aggregate of the word, with the column that is summed.
fn aggregate_of(
    columns: &[Column],
    word: Option<Word>,
    sum: Option<&Value>,
) -> Result<Option<Aggregate>, PlanError>
    ensures { Gives (λ a. a) result (aggregate_of columns.now word
        (option_map (λ v. view v.now) sum.entry)) }
{
    match (word, sum) {
        (None, None) => Ok(None),
        (Some(Word::Count), None) => Ok(Some(Aggregate::Count)),
        (Some(Word::Sum), None) => Err(PlanError::At(
            Flaw::MissingField,
            Spot::new(Part::Stage, "sum", A_SUM),
        )),
        (Some(Word::Sum), Some(value)) => {
            let name = text_in(value, Part::Stage.field("sum"))?;
            Ok(Some(Aggregate::Sum(column_place(columns, name))))
        }
        (_, Some(_)) => Err(PlanError::At(
            Flaw::TypeMismatch,
            Spot::new(Part::Stage, "sum", A_SUM),
        )),
    }
}

/// The columns of the right table, if there is one.
fn right_columns<'a>(tables: &'a [Table], right: Option<&str>) -> &'a [Column]
    ensures { result.now ≡ right_columns tables.now (option_copied right.entry) }
{
    match right {
        Some(name) => columns_of(tables, name),
        None => &[],
    }
}

/// The columns of the table with the name, if there is one.
fn columns_of<'a>(tables: &'a [Table], name: &str) -> &'a [Column]
    ensures { result.now ≡ columns_of tables.now name.now }
{
    columns_at(tables, table_place(tables, name))
}

/// The columns of the table whose column is summed.
fn told_columns<'a>(tables: &'a [Table], left: &str, right: Option<&str>) -> &'a [Column]
    ensures { result.now ≡ told_columns tables.now left.now (option_copied right.entry) }
{
    match right {
        Some(name) => columns_of(tables, name),
        None => columns_of(tables, left),
    }
}

/// The side of the table with the name, by the column with the name.
fn side_of(tables: &[Table], name: &str, key: &str, conditions: Vec<Condition>) -> Side
    ensures { result ≡ side_of tables.now name.now key.now conditions.items }
{
    let key = column_place(columns_of(tables, name), key);
    Side::new(table_place(tables, name), key, conditions)
}

/// The right side, if there is one.
fn right_side(
    tables: &[Table],
    right: Option<&str>,
    key: Option<&str>,
    conditions: Vec<Condition>,
) -> Option<Side>
    ensures { result ≡ right_side tables.now (option_copied right.entry) (option_copied key.entry)
        conditions.items }
{
    match (right, key) {
        (Some(name), Some(key)) => Some(side_of(tables, name, key, conditions)),
        _ => None,
    }
}

/// The stage as it is read.
#[derive(Drop)]
pub(crate) struct StageParts {
    pub(crate) shards: usize,
    pub(crate) left: Side,
    pub(crate) right: Option<Side>,
    pub(crate) aggregate: Option<Aggregate>,
    pub(crate) cap: usize,
}

impl Model for StageParts {
    ghost use Rattle.document.specs.Fields.{StageLayout};

    ghost Value = { StageLayout };

    ghost view = { λ s. record {
      shards = s.shards;
      left = s.left;
      right = s.right;
      aggregate = s.aggregate;
      cap = s.cap;
    } };
}

/// The stage of a document over these tables.
#[tactic(auto, unfolding(crate::specs::Fields::stage_at))]
fn stage_at(alloc: Global, tables: &[Table], stage: &Value) -> Result<StageParts, PlanError>
    ensures { Gives (λ s. s) result (stage_at tables.now (view stage.now)) }
{
    let members = table_in(stage, Part::Stage.field("stage"))?;
    let shards = whole(stage, Part::Stage, "shards")?;
    let left = text(stage, Part::Stage, "left")?;
    let left_key = text(stage, Part::Stage, "left_key")?;
    let right = paired(stage, Part::Stage, "right", "right_key")?;
    let right_key = paired(stage, Part::Stage, "right_key", "right")?;
    let word = word(stage)?;
    let told = told_columns(tables, left, right);
    let aggregate = aggregate_of(told, word, stage.get("sum"))?;
    let left_where = left_where(alloc, columns_of(tables, left), stage)?;
    let right_where = right_where(alloc, right_columns(tables, right), right, stage)?;
    let cap = whole_or(1024, stage, Part::Stage, "cap")?;
    if !has_only(members, &STAGE_FIELDS) {
        return Err(PlanError::At(Flaw::TypeMismatch, Spot::new(Part::Stage, "stage", LISTED)));
    }
    Ok(StageParts {
        shards,
        left: side_of(tables, left, left_key, left_where),
        right: right_side(tables, right, right_key, right_where),
        aggregate,
        cap,
    })
}

/// The stage of a document, which is needed.
pub(crate) fn stage(
    alloc: Global,
    tables: &[Table],
    document: &Value,
) -> Result<StageParts, PlanError>
    ensures { Gives (λ s. s) result (needed (stage_at tables.now)
        (get (codes "stage") (view document.now))) }
{
    match document.get("stage") {
        Some(value) => stage_at(alloc, tables, value),
        None => Err(PlanError::At(
            Flaw::MissingField,
            Spot::new(Part::Recipe, "stage", "a stage"),
        )),
    }
}
