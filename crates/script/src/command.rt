//! The commands that words ask for.
ghost use Rattle.std.specs.Prelude.{◌≡◌, ◌≢◌, ℕ, List, [], ◌∷◌, ◌<◌, length, map, codes, IfSome, IsNone};
ghost use Rattle.std.specs.Cow.{cow_str_bytes};
ghost use Rattle.script.specs.Commands.{Action, action_of, Asks};

use crate::reader::Form;
use std::borrow::CowStr;

/// What a line of a script asks for.
#[derive(Drop)]
pub enum Command<'t> {
    /// `insert TABLE CELL..`: a row, of at least one cell, for the table.
    Insert {
        table: CowStr<'t>,
        cells: Vec<CowStr<'t>>,
    },
    /// `update TABLE CELL..`: a row, of at least one cell, in place of the row of its key.
    Update {
        table: CowStr<'t>,
        cells: Vec<CowStr<'t>>,
    },
    /// `delete TABLE KEY`: the row of the key goes.
    Delete {
        table: CowStr<'t>,
        key: CowStr<'t>,
    },
    /// `fence`: the session's floors raised to what it has seen.
    Fence,
    /// `try VIEW KEY`: the rows of the key in the view, where they are shown.
    Try {
        view: CowStr<'t>,
        key: CowStr<'t>,
    },
    /// `read VIEW KEY`: the rows of the key in the view.
    Read {
        view: CowStr<'t>,
        key: CowStr<'t>,
    },
    /// `closing VIEW KEY`: a `read` at the end of what is run.
    Closing {
        view: CowStr<'t>,
        key: CowStr<'t>,
    },
    /// `evict stage KEY`: the stage shard is to forget the rows of the stage key.
    EvictStage {
        key: CowStr<'t>,
    },
    /// `evict view VIEW KEY`: the view shard is to forget the rows of the key.
    EvictView {
        view: CowStr<'t>,
        key: CowStr<'t>,
    },
    /// `count VIEW`: how many requests the shards of the view have sent.
    Count {
        view: CowStr<'t>,
    },
}

impl<'t> Command<'t> {
    /// The command that the words ask for: its name, and then its operands; none where they are of
    /// no form. Takes no memory. Cost: a look at each word.
    pub fn of(mut words: Vec<CowStr<'t>>) -> Option<Command<'t>>
        requires { 0 < length words.items }
        ensures some { IfSome result (λ command. Asks (map cow_str_bytes words.entry.items)
            (action_of command)) }
        ensures none { IsNone result → (action : Action)
            → ¬ Asks (map cow_str_bytes words.entry.items) action }
    {
        let name = words.remove(0);
        Some(match name.as_str() {
            "insert" => {
                let (table, cells) = table_and_cells(words)?;
                Command::Insert { table, cells }
            }
            "update" => {
                let (table, cells) = table_and_cells(words)?;
                Command::Update { table, cells }
            }
            "delete" => {
                let (table, key) = name_and_key(words)?;
                Command::Delete { table, key }
            }
            "fence" if words.is_empty() => Command::Fence,
            "try" => {
                let (view, key) = name_and_key(words)?;
                Command::Try { view, key }
            }
            "read" => {
                let (view, key) = name_and_key(words)?;
                Command::Read { view, key }
            }
            "closing" => {
                let (view, key) = name_and_key(words)?;
                Command::Closing { view, key }
            }
            "evict" if words.len() == 2 => Command::EvictStage {
                key: stage_key(words)?,
            },
            "evict" => {
                let (view, key) = view_and_key(words)?;
                Command::EvictView { view, key }
            }
            "count" => Command::Count {
                view: only_name(words)?,
            },
            _ => return None,
        })
    }
}

impl<'t> Form<'t> for Command<'t> {
    ghost Asked = { Action };

    ghost asked = { action_of };

    ghost asks = { Asks };

    fn of_words(words: Vec<CowStr<'t>>) -> Option<Command<'t>> {
        Command::of(words)
    }
}

// The operands `TABLE CELL..`, where there is at least one cell.
fn table_and_cells<'t>(mut operands: Vec<CowStr<'t>>) -> Option<(CowStr<'t>, Vec<CowStr<'t>>)>
    ensures some { IfSome result (λ found. map cow_str_bytes operands.entry.items
        ≡ cow_str_bytes found.0 ∷ map cow_str_bytes found.1.items) }
    ensures cells { IfSome result (λ found. 0 < length found.1.items) }
    ensures none { IsNone result → (table : List ℕ) (cells : List (List ℕ)) → 0 < length cells
        → map cow_str_bytes operands.entry.items ≢ table ∷ cells }
{
    if operands.len() < 2 {
        return None;
    }
    let table = operands.remove(0);
    Some((table, operands))
}

// The operands `VIEW KEY` or `TABLE KEY`, where they are just two.
fn name_and_key<'t>(mut operands: Vec<CowStr<'t>>) -> Option<(CowStr<'t>, CowStr<'t>)>
    ensures some { IfSome result (λ found. map cow_str_bytes operands.entry.items
        ≡ cow_str_bytes found.0 ∷ cow_str_bytes found.1 ∷ []) }
    ensures none { IsNone result → (name key : List ℕ)
        → map cow_str_bytes operands.entry.items ≢ name ∷ key ∷ [] }
{
    if operands.len() != 2 {
        return None;
    }
    let key = operands.remove(1);
    let name = operands.remove(0);
    Some((name, key))
}

// The key of the operands `stage KEY`.
fn stage_key<'t>(operands: Vec<CowStr<'t>>) -> Option<CowStr<'t>>
    ensures some { IfSome result (λ key. map cow_str_bytes operands.entry.items
        ≡ codes "stage" ∷ cow_str_bytes key ∷ []) }
    ensures none { IsNone result → (key : List ℕ)
        → map cow_str_bytes operands.entry.items ≢ codes "stage" ∷ key ∷ [] }
{
    let (place, key) = name_and_key(operands)?;
    if place.as_str() != "stage" {
        return None;
    }
    Some(key)
}

// The operands `view VIEW KEY`.
fn view_and_key<'t>(mut operands: Vec<CowStr<'t>>) -> Option<(CowStr<'t>, CowStr<'t>)>
    ensures some { IfSome result (λ found. map cow_str_bytes operands.entry.items
        ≡ codes "view" ∷ cow_str_bytes found.0 ∷ cow_str_bytes found.1 ∷ []) }
    ensures none { IsNone result → (view key : List ℕ)
        → map cow_str_bytes operands.entry.items ≢ codes "view" ∷ view ∷ key ∷ [] }
{
    if operands.is_empty() || operands.remove(0).as_str() != "view" {
        return None;
    }
    name_and_key(operands)
}

// The operand, where it is just one.
fn only_name<'t>(mut operands: Vec<CowStr<'t>>) -> Option<CowStr<'t>>
    ensures some { IfSome result (λ name. map cow_str_bytes operands.entry.items
        ≡ cow_str_bytes name ∷ []) }
    ensures none { IsNone result → (name : List ℕ)
        → map cow_str_bytes operands.entry.items ≢ name ∷ [] }
{
    if operands.len() != 1 {
        return None;
    }
    operands.pop()
}
