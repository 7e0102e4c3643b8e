//! Fronts: the first entries of a log.
ghost use Rattle.std.specs.Prelude.{◌≡◌, ◌<◌, map, length};
ghost use Rattle.std.specs.List.{list_all};
ghost use Rattle.model.specs.{Entries.change_of, Logs.fits};

use model::entry::Entry;
use plan::table::Table;
use std::marker::Model;

/// The first entries of a log, from its beginning on.
#[derive(Drop)]
pub struct Front {
    entries: Vec<Entry>,
}

impl Model for Front {
    ghost use Rattle.std.specs.Prelude.{List, map};
    ghost use Rattle.model.specs.{Logs.Change, Entries.change_of};

    ghost Value = { List Change };

    ghost view = { λ f. map change_of f.entries.items };
}

impl Front {
    /// The front of these entries.
    pub fn new(entries: Vec<Entry>) -> Front
        ensures { result ≡ map change_of entries.items }
    {
        Front { entries }
    }

    /// The entries from the first one on.
    pub fn entries(&self) -> &[Entry]
        ensures { map change_of result.now ≡ self.now }
    {
        self.entries.as_slice()
    }

    /// Whether each entry fits the table. Costs a look at each.
    pub fn fits(&self, table: &Table) -> bool
        requires { table.now.key < length table.now.columns }
        ensures { result ≡ list_all (fits table.now) self.now }
    {
        self.entries.iter().all(|entry| entry.fits(table))
    }
}

/// A front of each source of the stage: of the left table's shards in order, then of the right
/// one's.
#[derive(Drop)]
pub struct Line {
    fronts: Vec<Front>,
}

impl Model for Line {
    ghost use Rattle.std.specs.Prelude.{List};
    ghost use Rattle.model.specs.Logs.{Change};

    ghost Value = { List (List Change) };

    ghost view = { λ l. l.fronts.items };
}

impl Line {
    /// The line of these fronts.
    pub fn new(fronts: Vec<Front>) -> Line
        ensures { result ≡ fronts.items }
    {
        Line { fronts }
    }

    /// The fronts in the order of the sources.
    pub fn fronts(&self) -> &[Front]
        ensures { result.now ≡ self.now }
    {
        self.fronts.as_slice()
    }
}
