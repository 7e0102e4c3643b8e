//! The items of a history, and the authors of entries.
use crate::entry::Entry;
use crate::floors::Floors;
use crate::lengths::Lengths;
use crate::place::Place;
use row::row::Row;
use row::value::Value;
use std::marker::Model;

/// An accepted write: its session, its number, the base shard whose log it goes to, and its entry.
#[derive(Drop)]
pub struct Write {
    pub session: usize,
    pub number: u64,
    pub base: usize,
    pub entry: Entry,
}

/// An answered read of a key of a view: its session, the rows that it showed, and their cut.
#[derive(Drop)]
pub struct Read {
    pub session: usize,
    pub view: usize,
    pub key: Value,
    pub rows: Vec<Row>,
    pub cut: Lengths,
}

/// A fence that has ended: its session, the places of that session's own writes that it was to
/// pass, and the floors that it gave.
#[derive(Drop)]
pub struct Fence {
    pub session: usize,
    pub own: Vec<Place>,
    pub floors: Floors,
}

/// An item of a history.
#[derive(Drop)]
pub enum Item {
    Write(Write),
    Read(Read),
    Fence(Fence),
}

/// Who wrote an entry of a log: the session, and the number of the write.
#[derive(Drop)]
pub struct Author {
    pub session: usize,
    pub number: u64,
}

impl Model for Author {
    ghost use Rattle.model.specs.Histories.{Author as AuthorView};

    ghost Value = { AuthorView };

    ghost view = { λ a. record { session = a.session; number = a.number } };
}
