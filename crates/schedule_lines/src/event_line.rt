//! The events that words ask for.
ghost use Rattle.std.specs.Prelude.{◌≡◌, ◌≢◌, ◌↔◌, ℕ, pos, ◌<◌, length, map, IsTrue, IfSome, IsNone, MatchOption};
ghost use Rattle.std.specs.Cow.{cow_str_bytes};
ghost use Rattle.schedule_lines.specs.Asks.{Ask, Asks, Calls, IsOrder, IsSession, IsWant, ask_of, called_by, session_limit};

use script::cell::number_of;
use script::command::Command;
use script::reader::Form;
use std::borrow::CowStr;

/// The greatest number of a session in a line, whether there is such a session or not.
const LAST: i64 = 4294967295;

/// What is written to a table, by its words.
#[derive(Drop)]
pub enum EntryWords<'t> {
    /// A row, of at least one cell.
    Insert(Vec<CowStr<'t>>),
    /// A row, of at least one cell, in place of the row of its key.
    Update(Vec<CowStr<'t>>),
    /// The row of the key goes.
    Delete(CowStr<'t>),
}

/// What a session asks for, by its words.
#[derive(Drop)]
pub enum CallWords<'t> {
    /// `insert TABLE CELL..`, `update TABLE CELL..` or `delete TABLE KEY`.
    Write {
        table: CowStr<'t>,
        entry: EntryWords<'t>,
    },
    /// `try VIEW KEY`: the rows of the key in the view, where they are shown.
    Try {
        view: CowStr<'t>,
        key: CowStr<'t>,
    },
    /// `want VIEW KEY`: the view shard is asked for the key, as a read that misses asks it.
    Want {
        view: CowStr<'t>,
        key: CowStr<'t>,
    },
    /// `fence`: the session's floors raised to what it has written.
    Fence,
    /// `count VIEW`: how many requests the shards of the view have sent.
    Count {
        view: CowStr<'t>,
    },
}

/// What a line of a schedule asks for. A session stands by its number, all else by its words.
#[derive(Drop)]
pub enum EventLine<'t> {
    /// `S CALL`: what the session asks for.
    Call { session: usize, call: CallWords<'t> },
    /// `deliver EDGE`: the first message of the edge comes.
    Deliver { edge: CowStr<'t> },
    /// `evict stage KEY`: the stage shard forgets the rows of the stage key.
    EvictStage { key: CowStr<'t> },
    /// `evict view VIEW KEY`: the view shard forgets the rows of the key.
    EvictView { view: CowStr<'t>, key: CowStr<'t> },
    /// `stop DOMAIN`: the domain runs no more.
    Stop { domain: CowStr<'t> },
    /// `settle`: deliveries until all edges are empty.
    Settle,
}

impl<'t> Form<'t> for EventLine<'t> {
    ghost Asked = { Ask };

    ghost asked = { ask_of };

    ghost asks = { Asks };

    fn of_words(mut words: Vec<CowStr<'t>>) -> Option<EventLine<'t>> {
        let Some(session) = session_of(words[0].as_str()) else {
            return order(words);
        };
        let _session = words.remove(0);
        let call = call(words)?;
        Some(EventLine::Call { session, call })
    }
}

/// The session's number that the word is, if it is one.
fn session_of(word: &str) -> Option<usize>
    ensures { MatchOption result ((n : ℕ) → ¬ IsSession word.now n)
        (λ n. IsSession word.now n) }
{
    match number_of(word) {
        Some(number) => session_in(number),
        None => None,
    }
}

/// The number as that of a session, if it is one.
fn session_in(number: i64) -> Option<usize>
    ensures { MatchOption result ((n : ℕ) → n < session_limit → number ≢ pos n)
        (λ n. (n < session_limit) × (number ≡ pos n)) }
{
    if number < 0 || number > LAST {
        return None;
    }
    Some(number as usize)
}

/// The call that the words behind a session's number ask for.
fn call<'t>(words: Vec<CowStr<'t>>) -> Option<CallWords<'t>>
    ensures some { IfSome result (λ call. (session : ℕ)
        → Calls session (map cow_str_bytes words.entry.items) (called_by session call)) }
    ensures none { IsNone result → (session : ℕ) (ask : Ask)
        → ¬ Calls session (map cow_str_bytes words.entry.items) ask }
{
    if words.is_empty() {
        return None;
    }
    if is_want(&words) {
        return want(words);
    }
    match Command::of(words)? {
        Command::Insert { table, cells } => Some(CallWords::Write {
            table,
            entry: EntryWords::Insert(cells),
        }),
        Command::Update { table, cells } => Some(CallWords::Write {
            table,
            entry: EntryWords::Update(cells),
        }),
        Command::Delete { table, key } => Some(CallWords::Write {
            table,
            entry: EntryWords::Delete(key),
        }),
        Command::Fence => Some(CallWords::Fence),
        Command::Try { view, key } => Some(CallWords::Try { view, key }),
        Command::Count { view } => Some(CallWords::Count { view }),
        Command::Read { .. }
        | Command::Closing { .. }
        | Command::EvictStage { .. }
        | Command::EvictView { .. } => None,
    }
}

/// Whether the first word is `want`.
fn is_want(words: &[CowStr<'_>]) -> bool
    ensures { IsTrue result ↔ IsWant (map cow_str_bytes words.now) }
{
    match words.first() {
        Some(word) => word.as_str() == "want",
        None => false,
    }
}

/// The words `want VIEW KEY`, of which the first is there.
fn want<'t>(mut words: Vec<CowStr<'t>>) -> Option<CallWords<'t>>
    requires { IsWant (map cow_str_bytes words.items) }
    ensures some { IfSome result (λ call. (session : ℕ)
        → Calls session (map cow_str_bytes words.entry.items) (called_by session call)) }
    ensures none { IsNone result → (session : ℕ) (ask : Ask)
        → ¬ Calls session (map cow_str_bytes words.entry.items) ask }
{
    if words.len() != 3 {
        return None;
    }
    let key = words.remove(2);
    let view = words.remove(1);
    Some(CallWords::Want { view, key })
}

/// What words that begin with no session's number ask for.
fn order<'t>(words: Vec<CowStr<'t>>) -> Option<EventLine<'t>>
    requires { 0 < length words.items }
    ensures some { IfSome result (λ line. IsOrder (map cow_str_bytes words.entry.items)
        (ask_of line)) }
    ensures none { IsNone result → (ask : Ask)
        → ¬ IsOrder (map cow_str_bytes words.entry.items) ask }
{
    if words.len() < 3 {
        return short_order(words);
    }
    match Command::of(words)? {
        Command::EvictStage { key } => Some(EventLine::EvictStage { key }),
        Command::EvictView { view, key } => Some(EventLine::EvictView { view, key }),
        _ => None,
    }
}

/// The words `settle`, `deliver EDGE` or `stop DOMAIN`.
fn short_order<'t>(mut words: Vec<CowStr<'t>>) -> Option<EventLine<'t>>
    requires some { 0 < length words.items }
    requires few { length words.items < 3 }
    ensures some { IfSome result (λ line. IsOrder (map cow_str_bytes words.entry.items)
        (ask_of line)) }
    ensures none { IsNone result → (ask : Ask)
        → ¬ IsOrder (map cow_str_bytes words.entry.items) ask }
{
    let name = words.remove(0);
    match (name.as_str(), words.pop()) {
        ("settle", None) => Some(EventLine::Settle),
        ("deliver", Some(edge)) => Some(EventLine::Deliver { edge }),
        ("stop", Some(domain)) => Some(EventLine::Stop { domain }),
        _ => None,
    }
}
