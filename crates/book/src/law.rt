//! The rule of the shared words, and who may name a book.
use logbook::{Gain, Opening, Plain, Play, Rule};
use std::marker::{Brand, Model};

/// A page of the book. It exists in proofs alone.
#[derive(Drop)]
pub struct LogPage {}

impl Model for LogPage {
    ghost use Rattle.book.specs.Pages.{Page, adds};
    ghost use Rattle.model.specs.Histories.{fence};
    ghost use Rattle.std.specs.Prelude.{[]};

    ghost Value = { Page };

    ghost view = { λ _. adds (fence 0 [] []) };
}

/// The rule of the book.
pub struct Law;

impl Rule<LogPage, u64> for Law {
    ghost use Rattle.std.specs.Prelude.{[]};
    ghost use base.Fml.{ftrue};
    ghost use Rattle.book.specs.Pages.{IsKept};

    ghost holds = { λ cells log. IsKept cells log };

    ghost first = { [] };

    ghost hinted = { λ n log. Unit {0} };

    ghost shows = { λ log. [] };

    ghost keeps = { λ names log. ftrue };

    ghost moves = { λ ask before after answer. Unit {0} };
}

/// Callers trade nothing.
pub struct Nothing;

impl Gain<LogPage, u64> for Nothing {
    ghost use base.Fml.{ftrue};

    ghost after = { λ names about answer. ftrue };
}

/// A step that looks.
pub struct Look;

impl Play<LogPage, u64> for Look {
    ghost use Rattle.book.specs.Pages.{Looks};

    ghost then = { Looks };
}

/// A step that adds an item.
pub struct Add;

impl Play<LogPage, u64> for Add {
    ghost use Rattle.book.specs.Pages.{Tries};

    ghost then = { Tries };
}

/// Which book it is, of which plan and how many sessions.
pub trait Naming {
    ghost use Rattle.std.specs.Prelude.{ℕ};
    ghost use Rattle.logbook.specs.Pages.{Book};
    ghost use Rattle.plan.specs.Layouts.{Layout};

    ghost book: { Book };

    ghost plan: { Layout };

    ghost sessions: { ℕ };
}

impl Naming for Brand {
    ghost use Rattle.plan.specs.Recipes.{notes_plan};

    ghost book = { record { number = 0; log_name = 0; cells_name = 0 } };

    ghost plan = { notes_plan };

    ghost sessions = { 0 };
}

/// A look asks for nothing, and its step reads no item.
impl Plain<(), LogPage, u64> for Look {
    ghost use Rattle.std.specs.Prelude.{None, []};
    ghost use Rattle.model.specs.Histories.{fence};
    ghost use Rattle.book.specs.Pages.{adds};

    ghost ask = { λ _. adds (fence 0 [] []) };

    ghost state = { λ _. None };
}
