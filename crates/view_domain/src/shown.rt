//! What a view shard tells its shown copy.
ghost use Rattle.std.specs.Prelude.{◌≡◌, IfSome, List};
ghost use Rattle.model.specs.Queries.{Line as LineView};
ghost use Rattle.view_domain.specs.Outboxes.{asked_after, cut_after, keys_told, line_told, put_line};

use key_rows::shared::SharedRows;
use model::fronts::Fronts;
use packet::line::Line;
use row::value::Value;
use std::marker::Model;

/// What becomes of a shown key.
#[derive(Drop)]
pub enum KeyChange {
    /// Its rows are these: it is filled, or they have changed.
    Fills { key: Value, rows: SharedRows },
    /// It is shown no longer.
    Goes { key: Value },
}

/// One operation on the shown copy: the new line of a stage shard, where it has moved, what becomes
/// of keys, in order, and how many requests the view shard has sent.
#[derive(Drop)]
pub struct ShownChange<F: Fronts> {
    stage: usize,
    line: Option<Line<F>>,
    keys: Vec<KeyChange>,
    asked: u64,
}

impl<F: Fronts> Model for ShownChange<F> {
    ghost use Rattle.view_domain.specs.Outboxes.{ShownView};

    ghost Value = { ShownView };

    ghost view = { λ s. record {
      stage = s.stage;
      line = s.line;
      keys = s.keys.items;
      asked = s.asked;
    } };
}

impl<F: Fronts> ShownChange<F> {
    /// The operation of these parts, where it would change anything. Takes no memory.
    pub(crate) fn of(
        stage: usize,
        line: Option<Line<F>>,
        keys: Vec<KeyChange>,
        was: u64,
        asked: u64,
    ) -> Option<ShownChange<F>>
        ensures parts { IfSome result (λ s. s ≡ record {
          stage = stage;
          line = line;
          keys = keys.items;
          asked = asked;
        }) }
        ensures keys { keys_told result ≡ keys.items }
        ensures line { line_told result ≡ line }
        ensures cut { (cut : List LineView) → cut_after result cut ≡ put_line stage line cut }
        ensures asked { asked_after result was ≡ asked }
    {
        if line.is_none() && keys.is_empty() && was == asked {
            return None;
        }
        Some(ShownChange {
            stage,
            line,
            keys,
            asked,
        })
    }

    /// The stage shard and its new line, what becomes of keys, and the count of requests, moved out
    /// of it.
    pub fn into_parts(self) -> (usize, Option<Line<F>>, Vec<KeyChange>, u64)
        ensures { self ≡ record {
          stage = result.0;
          line = result.1;
          keys = result.2.items;
          asked = result.3;
        } }
    {
        (self.stage, self.line, self.keys, self.asked)
    }
}
