//! Requests and markers.
ghost use Rattle.std.specs.Prelude.{◌≡◌};
ghost use Rattle.row.specs.Cells.{datum_of};

use plan::domain::Tag;
use row::value::Value;
use std::marker::Model;

/// The marker of a fence on its way, behind all that was sent before it: the fence's session, and
/// the number of its call.
#[derive(Clone, Copy, PartialEq, Eq, Debug)]
pub struct Marker {
    pub session: usize,
    pub number: u64,
}

/// Asks for the rows of a key: of the right side of the stage, or of a view, as the tag says.
#[derive(Drop)]
pub struct Request {
    tag: Tag,
    key: Value,
}

impl Request {
    /// A request of this key.
    pub fn new(tag: Tag, key: Value) -> Request
        ensures { result ≡ record { tag = tag.0; key = datum_of key } }
    {
        Request { tag, key }
    }

    /// What it asks to fill.
    pub fn tag(&self) -> Tag
        ensures { result.0 ≡ self.now.tag }
    {
        self.tag
    }

    /// The key that it asks for.
    pub fn key(&self) -> &Value
        ensures { datum_of result.now ≡ self.now.key }
    {
        &self.key
    }

    /// The key that it asks for, moved out of it.
    pub fn into_key(self) -> Value
        ensures { datum_of result ≡ self.key }
    {
        self.key
    }
}

impl Model for Request {
    ghost use Rattle.row.specs.Cells.{datum_of};
    ghost use Rattle.packet.specs.Messages.{Ask};

    ghost Value = { Ask };

    ghost view = { λ r. record { tag = r.tag.0; key = datum_of r.key } };
}
