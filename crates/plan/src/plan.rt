//! A checked plan, which contracts see as its layout.
ghost use Rattle.std.specs.Prelude.{◌≡◌, ◌<◌, ◌≤◌, IfOk, IfSome, MatchOption, length, string_bytes};
ghost use Rattle.std.specs.Option.{option_copied};
ghost use Rattle.plan.specs.{Layouts.ViewLayout, Layouts.table_at, Layouts.table_named, Layouts.view_at, Layouts.view_named, Facts.Facts, Outputs.key_place, Profile.IsPlan, Recipes.notes_plan, Recipes.view};

use crate::draft::Draft;
use crate::kinds::{Aggregate, Kind};
use crate::names::Named;
use crate::stage::Side;
use crate::table::{Column, Table};
use std::alloc::{AllocError, Global};
use std::marker::Model;

/// A view: its name, the left column that keys it, its shards, and how many filled keys a shard
/// keeps.
#[derive(Drop)]
pub struct ViewPlan {
    name: String,
    key: usize,
    shards: usize,
    cap: usize,
}

impl Model for ViewPlan {
    ghost use Rattle.std.specs.Prelude.{string_bytes};
    ghost use Rattle.plan.specs.Layouts.{ViewLayout};

    ghost Value = { ViewLayout };

    ghost view = { λ v. record {
      name = string_bytes v.name;
      key = v.key;
      shards = v.shards;
      cap = v.cap;
    } };
}

impl ViewPlan {
    /// A view of this name, keyed by the column at the place `key`.
    pub fn new(name: String, key: usize, shards: usize, cap: usize) -> ViewPlan
        ensures { result ≡ view (string_bytes name) key shards cap }
    {
        ViewPlan {
            name,
            key,
            shards,
            cap,
        }
    }

    /// The view's name.
    pub fn name(&self) -> &str
        ensures { result.now ≡ self.now.name }
    {
        self.name.as_str()
    }

    /// The column of the left table that keys the view.
    pub fn key(&self) -> usize
        ensures { result ≡ self.now.key }
    {
        self.key
    }

    /// How many shards the view has.
    pub fn shards(&self) -> usize
        ensures { result ≡ self.now.shards }
    {
        self.shards
    }

    /// How many filled keys a shard of the view keeps.
    pub fn cap(&self) -> usize
        ensures { result ≡ self.now.cap }
    {
        self.cap
    }
}

impl Named for ViewPlan {
    ghost name_of = { λ (v : ViewLayout). v.name };

    fn own_name(&self) -> &str {
        self.name()
    }
}

/// A checked plan. Its type keeps the profile: between 1 and 8 tables of 1 to 16 columns and 1 to
/// 8 shards, a stage of 1 to 8 shards, 1 to 4 views, every place inside, kinds that agree, and
/// names that are apart.
pub struct Plan {
    parts: Draft,
}

// What holds one drops it by this call, and need not know its parts.
impl Drop for Plan {
    fn drop(self) {
        let Plan { parts: _ } = self;
    }
}

impl Model for Plan {
    ghost use Rattle.plan.specs.{Layouts.Layout, Profile.IsPlan};

    ghost Value = { Layout };

    ghost view = { λ p. p.parts };

    ghost invariant = { λ p. IsPlan p.parts };
}

impl Plan {
    /// The built-in plan: one table `notes(id int, author int, body text)` with key `id`, and one
    /// view `by_author` of its rows, keyed by `author`; one shard of each. Errors: memory only.
    #[tactic(auto, unfolding(crate::specs::Profile::IsPlan))]
    pub fn built_in(alloc: Global) -> Result<Plan, AllocError>
        ensures { IfOk result (λ p. p ≡ notes_plan) }
    {
        let mut columns = Vec::new(alloc);
        columns.push(Column::new(alloc, "id", Kind::Int)?)?;
        columns.push(Column::new(alloc, "author", Kind::Int)?)?;
        columns.push(Column::new(alloc, "body", Kind::Text)?)?;
        let mut tables = Vec::new(alloc);
        tables.push(Table::new(String::from_str(alloc, "notes")?, 1, 0, columns))?;
        let mut views = Vec::new(alloc);
        views.push(ViewPlan::new(String::from_str(alloc, "by_author")?, 1, 1, 4))?;
        let parts = Draft {
            tables,
            stages: 1,
            left: Side::new(0, 0, Vec::new(alloc)),
            right: None,
            aggregate: None,
            cap: 1024,
            views,
        };
        Ok(Plan { parts })
    }

    /// The plan of these parts, or nothing where one of the six checks refuses them. Takes no
    /// memory. Cost: a look at each pair of names.
    pub fn check(draft: Draft) -> Option<Plan>
        ensures { MatchOption result (IsPlan draft → ⊥) (λ p. (p ≡ draft) × IsPlan draft) }
    {
        if !draft.is_plan() {
            return None;
        }
        Some(Plan::from_checked(draft))
    }

    /// The plan of a draft that no check refuses. Takes no memory.
    pub fn from_checked(draft: Draft) -> Plan
        requires { IsPlan draft }
        ensures { result ≡ draft }
    {
        Plan { parts: draft }
    }

    /// The plan is of the profile, which its type keeps. Does nothing: a caller learns its facts.
    pub fn keeps_profile(&self)
        ensures { Facts self.now }
    {
        let _parts = &self.parts;
    }

    /// The place of the table with this name. Costs a look at each name.
    pub fn table_named(&self, name: &str) -> Option<usize>
        ensures place { result ≡ table_named self.now name.now }
        ensures there { IfSome result (λ table. table < length self.now.tables) }
    {
        self.parts
            .tables
            .iter()
            .position(|table| table.name() == name)
    }

    /// How many tables there are.
    pub fn tables(&self) -> usize
        ensures count { result ≡ length self.now.tables }
        ensures few { result ≤ 8 }
    {
        self.keeps_profile();
        self.parts.tables.len()
    }

    /// The table at this place.
    pub fn table(&self, table: usize) -> &Table
        requires { table < length self.now.tables }
        ensures table { result.now ≡ table_at self.now table }
        ensures key { result.now.key < length result.now.columns }
        ensures shards { result.now.shards ≤ 8 }
    {
        self.keeps_profile();
        &self.parts.tables[table]
    }

    /// How many shards the table at this place has, or 0 where there is no table.
    pub(crate) fn table_shards(&self, table: usize) -> usize
        ensures { result ≡ (table_at self.now table).shards }
    {
        match self.parts.tables.get(table) {
            Some(table) => table.shards(),
            None => 0,
        }
    }

    /// The name of the table at this place, or nothing where there is no table.
    pub(crate) fn table_name(&self, table: usize) -> &str
        ensures { result.now ≡ (table_at self.now table).name }
    {
        match self.parts.tables.get(table) {
            Some(table) => table.name(),
            None => "",
        }
    }

    /// The name of the view at this place, or nothing where there is no view.
    pub(crate) fn view_name(&self, view: usize) -> &str
        ensures { result.now ≡ (view_at self.now view).name }
    {
        match self.parts.views.get(view) {
            Some(view) => view.name(),
            None => "",
        }
    }

    /// How many shards the stage has.
    pub fn stages(&self) -> usize
        ensures { result ≡ self.now.stages }
    {
        self.parts.stages
    }

    /// The left side of the stage.
    pub fn left(&self) -> &Side
        ensures { result.now ≡ self.now.left }
    {
        &self.parts.left
    }

    /// The right side of the stage, if it has one.
    pub fn right(&self) -> Option<&Side>
        ensures { option_copied result ≡ self.now.right }
    {
        self.parts.right.as_ref()
    }

    /// The aggregate of partners or of a group, if there is one.
    pub fn aggregate(&self) -> Option<Aggregate>
        ensures { result ≡ self.now.aggregate }
    {
        self.parts.aggregate
    }

    /// How many filled keys a stage shard keeps.
    pub fn cap(&self) -> usize
        ensures { result ≡ self.now.cap }
    {
        self.parts.cap
    }

    /// The place of the view with this name. Costs a look at each name.
    pub fn view_named(&self, name: &str) -> Option<usize>
        ensures place { result ≡ view_named self.now name.now }
        ensures there { IfSome result (λ view. view < length self.now.views) }
    {
        self.parts.views.iter().position(|view| view.name() == name)
    }

    /// How many views there are.
    pub fn views(&self) -> usize
        ensures { result ≡ length self.now.views }
    {
        self.parts.views.len()
    }

    /// The view at this place.
    pub fn view(&self, view: usize) -> &ViewPlan
        requires { view < length self.now.views }
        ensures { result.now ≡ view_at self.now view }
    {
        &self.parts.views[view]
    }

    /// The place in an output row of the column that keys the view: the first where the rows of
    /// each key are counted or summed, and else the left column that keys it. Constant time.
    pub fn key_place(&self, view: usize) -> usize
        requires { view < length self.now.views }
        ensures { result ≡ key_place self.now.right self.now.aggregate (view_at self.now view).key }
    {
        if self.parts.right.is_none() && self.parts.aggregate.is_some() {
            0
        } else {
            self.view(view).key()
        }
    }
}
