//! What a sender has of a key.
ghost use Rattle.std.specs.Prelude.{◌≡◌};
ghost use Rattle.row.specs.Cells.{datum_of};

use crate::request::Request;
use plan::domain::Tag;
use row::row::Row;
use row::value::Value;
use std::marker::Model;

/// The rows that one sender has of a key, in order, as the answer to a request with this tag.
pub struct Piece {
    of: Request,
    rows: Vec<Row>,
}

// What holds one drops it by this call, and need not know its parts.
impl Drop for Piece {
    fn drop(self) {
        let Piece { of: _, rows: _ } = self;
    }
}

impl Model for Piece {
    ghost use Rattle.packet.specs.Messages.{Piece as PieceView};

    ghost Value = { PieceView };

    ghost view = { λ p. record { tag = p.of.tag; key = p.of.key; rows = p.rows.items } };
}

impl Piece {
    /// These rows, as those of the key.
    pub fn new(tag: Tag, key: Value, rows: Vec<Row>) -> Piece
        ensures { result ≡ record { tag = tag.0; key = datum_of key; rows = rows.items } }
    {
        Piece {
            of: Request::new(tag, key),
            rows,
        }
    }

    /// What it fills.
    pub fn tag(&self) -> Tag
        ensures { result.0 ≡ self.now.tag }
    {
        self.of.tag()
    }

    /// The key whose rows these are.
    pub fn key(&self) -> &Value
        ensures { datum_of result.now ≡ self.now.key }
    {
        self.of.key()
    }

    /// The rows in order.
    pub fn rows(&self) -> &[Row]
        ensures { result.now ≡ self.now.rows }
    {
        &self.rows
    }

    /// The key and the rows, moved out of it.
    pub fn into_parts(self) -> (Value, Vec<Row>)
        ensures key { datum_of result.0 ≡ self.key }
        ensures rows { result.1.items ≡ self.rows }
    {
        let Piece { of, rows } = self;
        (of.into_key(), rows)
    }
}
