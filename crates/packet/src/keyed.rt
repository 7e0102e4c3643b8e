//! A row of a view that comes or goes, beside its key.
ghost use Rattle.std.specs.Prelude.{◌≡◌};
ghost use Rattle.row.specs.Cells.{datum_of};

use row::record::Record;
use row::value::Value;
use std::marker::Model;

/// A record of a view, and the view's key that its row is of.
pub struct Keyed {
    key: Value,
    change: Record,
}

// What holds one drops it by this call, and need not know its parts.
impl Drop for Keyed {
    fn drop(self) {
        let Keyed { key: _, change: _ } = self;
    }
}

impl Keyed {
    /// The record as one of the key.
    pub fn new(key: Value, change: Record) -> Keyed
        ensures { result ≡ record { key = datum_of key; change = change } }
    {
        Keyed { key, change }
    }

    /// The key. Constant time.
    pub fn key(&self) -> &Value
        ensures { datum_of result.now ≡ self.now.key }
    {
        &self.key
    }

    /// The record. Constant time.
    pub fn change(&self) -> &Record
        ensures { result.now ≡ self.now.change }
    {
        &self.change
    }

    /// The key and the record, moved out of it.
    pub fn into_parts(self) -> (Value, Record)
        ensures key { datum_of result.0 ≡ self.key }
        ensures change { result.1 ≡ self.change }
    {
        let Keyed { key, change } = self;
        (key, change)
    }
}

impl Model for Keyed {
    ghost use Rattle.row.specs.Cells.{datum_of};
    ghost use Rattle.packet.specs.Messages.{KeyedRecord};

    ghost Value = { KeyedRecord };

    ghost view = { λ c. record { key = datum_of c.key; change = c.change } };
}
