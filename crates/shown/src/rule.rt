//! The rule of a shown copy: what is shown is true, and its cut only grows.
use crate::shown::Shown;
use atomic_table::{Join, Split};
use book::law::Naming;
use crossbeam_utils::rule::{Outcome, Protocol};
use std::marker::Model;

/// What a snapshot is to contracts. It exists in proofs alone.
#[derive(Drop)]
pub struct Shot {}

impl Model for Shot {
    ghost use Rattle.shown.specs.{Snapshots.Snapshot, Sights.nothing};

    ghost Value = { Snapshot };

    ghost view = { λ _. nothing };
}

/// What a reader or the writer has seen: nothing, or a snapshot. It exists in proofs alone.
#[derive(Drop)]
pub struct Sight {}

impl Model for Sight {
    ghost use Rattle.std.specs.Prelude.{Option, None};
    ghost use Rattle.shown.specs.Snapshots.{Snapshot};

    ghost Value = { Option Snapshot };

    ghost view = { λ _. None };
}

/// The rule.
pub struct Published;

impl<J: Naming> Protocol<Shown<J>, Sight> for Published {
    ghost use Rattle.std.specs.Prelude.{None};
    ghost use Rattle.shown.specs.Sights.{Keeps};

    ghost holds = { λ x sights. Keeps J.plan x sights };

    ghost first = { None };
}

/// A look, or a publication.
pub struct Looks;

impl<J: Naming> Outcome<Shown<J>, Sight> for Looks {
    ghost use Rattle.shown.specs.Sights.{Sees};

    ghost then = { λ v x y w. Sees J.plan v y w };
}

/// The writer tells what it has seen, and a reader that has seen nothing takes that for seen.
pub struct Tells;

impl Split<Sight> for Tells {
    ghost left = { λ v. v };

    ghost right = { λ v. v };
}

impl Join<Sight> for Tells {
    ghost use Rattle.std.specs.Prelude.{None};

    ghost both = { λ v w. w };

    ghost spent = { None };
}
