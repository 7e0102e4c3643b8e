//! The shown keys with their rows.
ghost use Rattle.std.specs.Prelude.{◌≡◌, ◌∷◌, [], OnOk, OnErr};
ghost use Rattle.std.specs.Option.{option_copied};
ghost use Rattle.row.specs.Cells.{datum_of};
ghost use Rattle.shown.specs.Snapshots.{shown_at, without};

use key_rows::shared::SharedRows;
use linked_map::map::LinkedMap;
use row::value::Value;
use std::alloc::{AllocError, Global};
use std::marker::Model;

/// Keys with their rows, each key once.
#[derive(Drop)]
pub struct Entries {
    map: LinkedMap<Value, SharedRows>,
}

impl Model for Entries {
    ghost use Rattle.shown.specs.Snapshots.{Rows, rows_in};

    ghost Value = { Rows };

    ghost view = { λ e. rows_in e.map };
}

impl Entries {
    /// No key. Takes no memory.
    pub fn new(alloc: Global) -> Entries
        ensures { result ≡ [] }
    {
        Entries {
            map: LinkedMap::new(alloc),
        }
    }

    /// The rows of a key, where it is there. Takes no memory. Constant time.
    pub fn get(&self, key: &Value) -> Option<&SharedRows>
        ensures { option_copied result ≡ shown_at self.now (datum_of key.now) }
    {
        self.map.peek(key)
    }

    /// Puts in a key with its rows, in the place of what was there of it. Errors: memory, or 2^32 - 1
    /// keys are there; then all is as it was. Constant time, spread over many.
    pub fn put(&mut self, key: Value, rows: SharedRows) -> Result<(), AllocError>
        ensures put { OnOk result (self.new
            ≡ (datum_of key, rows) ∷ without (datum_of key) self.old) }
        ensures err { OnErr result (self.new ≡ self.old) }
    {
        let _ = self.map.len();
        self.map.put(key, rows)?;
        Ok(())
    }

    /// Takes a key out, where it is there. Takes no memory. Constant time.
    pub fn remove(&mut self, key: &Value)
        ensures { self.new ≡ without (datum_of key.now) self.old }
    {
        let _ = self.map.len();
        let _gone = self.map.pop(key);
    }
}
