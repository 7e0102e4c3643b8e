//! The checks that a draft goes through, one after the other, before it is a plan.
ghost use Rattle.std.specs.Prelude.{◌≡◌};
ghost use Rattle.std.specs.List.{list_all};
ghost use Rattle.std.specs.Option.{is_none};
ghost use Rattle.plan.specs.{Layouts.ViewLayout, Profile.if_there, Profile.width_at, Profile.table_is_small, Profile.side_is_small, Profile.view_is_small, Profile.tables_are_small, Profile.stage_is_small, Profile.views_are_small, Profile.keeps_limits, Profile.is_not_stage, Profile.table_is_apart, Profile.has_own_names, Profile.key_is_known, Profile.side_is_known, Profile.sides_are_known, Profile.sum_is_known, Profile.right_width, Profile.has_column, Profile.view_keys_are_known, Profile.has_known_places, Profile.has_single_paths, Profile.has_left_keys, Profile.sides_agree, Profile.side_agrees, Profile.values_agree, Profile.has_one_kind, Profile.refusal};

use crate::draft::{Draft, is_one_kind};
use crate::kinds::Aggregate;
use crate::names::is_name;
use crate::plan::ViewPlan;
use crate::stage::Side;
use crate::table::{Table, is_from};

impl Draft {
    /// Whether no check refuses the draft.
    pub(crate) fn is_plan(&self) -> bool
        ensures { result ≡ is_none (refusal self.now) }
    {
        self.keeps_limits()
            && self.has_own_names()
            && self.has_known_places()
            && self.has_single_paths()
            && self.has_left_keys()
            && self.has_one_kind()
    }

    /// Whether all numbers are within the limits, all names are of the form of names, and no text
    /// that a cell is compared with is one that no cell can be. Takes no memory.
    pub fn keeps_limits(&self) -> bool
        ensures { result ≡ keeps_limits self.now }
    {
        self.tables_are_small() && self.stage_is_small() && self.views_are_small()
    }

    fn tables_are_small(&self) -> bool
        ensures { result ≡ tables_are_small self.now }
    {
        is_from(1, 8, self.tables.len()) && self.each_table_is_small()
    }

    fn each_table_is_small(&self) -> bool
        ensures { result ≡ list_all table_is_small self.now.tables }
    {
        self.tables.iter().all(Table::is_small)
    }

    fn stage_is_small(&self) -> bool
        ensures { result ≡ stage_is_small self.now }
    {
        is_from(1, 8, self.stages)
            && is_from(1, 65536, self.cap)
            && self.left.is_small()
            && self.right_is_small()
    }

    /// Whether the right side, if there is one, has few conditions, with values that cells can be.
    pub fn right_is_small(&self) -> bool
        ensures { result ≡ if_there side_is_small self.now.right }
    {
        match &self.right {
            None => true,
            Some(right) => right.is_small(),
        }
    }

    fn views_are_small(&self) -> bool
        ensures { result ≡ views_are_small self.now }
    {
        is_from(1, 4, self.views.len()) && self.each_view_is_small()
    }

    fn each_view_is_small(&self) -> bool
        ensures { result ≡ list_all view_is_small self.now.views }
    {
        self.views.iter().all(ViewPlan::is_small)
    }

    /// Whether no two tables or views have one name, no two columns of a table have one, and no
    /// table or view is named `stage`. Takes no memory. Cost: a look at each pair of names.
    pub fn has_own_names(&self) -> bool
        ensures { result ≡ has_own_names self.now }
    {
        self.has_names() && self.tables_are_apart() && self.views_are_not_stage()
    }

    fn tables_are_apart(&self) -> bool
        ensures { result ≡ list_all table_is_apart self.now.tables }
    {
        self.tables.iter().all(Table::is_apart)
    }

    fn views_are_not_stage(&self) -> bool
        ensures { result ≡ list_all (λ (v : ViewLayout). is_not_stage v.name) self.now.views }
    {
        self.views.iter().all(ViewPlan::is_not_stage)
    }

    /// Whether each table and column that is named is there; a view's key may be a column of either
    /// side, those of the right table counted after those of the left one. Takes no memory.
    pub fn has_known_places(&self) -> bool
        ensures { result ≡ has_known_places self.now }
    {
        self.keys_are_known()
            && self.sides_are_known()
            && self.sum_is_known()
            && self.view_keys_are_known()
    }

    fn keys_are_known(&self) -> bool
        ensures { result ≡ list_all key_is_known self.now.tables }
    {
        self.tables.iter().all(Table::has_key)
    }

    fn sides_are_known(&self) -> bool
        ensures { result ≡ sides_are_known self.now }
    {
        self.side_is_known(&self.left)
            && match &self.right {
                None => true,
                Some(right) => self.side_is_known(right),
            }
    }

    /// Whether the side's table is there, and the columns that it names.
    pub fn side_is_known(&self, side: &Side) -> bool
        ensures { result ≡ side_is_known self.now side.now }
    {
        side.table() < self.tables.len() && side.is_within(self.width_at(side.table()))
    }

    /// Whether the column that is summed, if any, is there.
    pub fn sum_is_known(&self) -> bool
        ensures { result ≡ sum_is_known self.now }
    {
        match self.aggregate {
            None | Some(Aggregate::Count) => true,
            Some(Aggregate::Sum(column)) => column < self.width_at(self.told_table()),
        }
    }

    fn view_keys_are_known(&self) -> bool
        ensures { result ≡ view_keys_are_known self.now }
    {
        self.views.iter().all(|view| self.has_column(view.key()))
    }

    /// Whether one of both sides has the column.
    pub fn has_column(&self, column: usize) -> bool
        ensures { result ≡ has_column self.now column }
    {
        let left = self.left_width();
        column < left || column - left < self.right_width()
    }

    /// How many columns the right table has, if it is there.
    fn right_width(&self) -> usize
        ensures { result ≡ right_width self.now self.now.right }
    {
        match &self.right {
            None => 0,
            Some(right) => self.width_at(right.table()),
        }
    }

    /// How many columns the table has, if it is there.
    pub fn width_at(&self, table: usize) -> usize
        ensures { result ≡ width_at self.now table }
    {
        match self.tables.get(table) {
            Some(table) => table.width(),
            None => 0,
        }
    }

    /// Whether the sides are of two tables.
    pub fn has_single_paths(&self) -> bool
        ensures { result ≡ has_single_paths self.now }
    {
        match &self.right {
            None => true,
            Some(right) => right.table() != self.left.table(),
        }
    }

    /// Whether each view is keyed by a left column, and in shape Group by the stage key.
    pub fn has_left_keys(&self) -> bool
        ensures { result ≡ has_left_keys self.now }
    {
        self.views.iter().all(|view| view.key() < self.left_width() && self.has_key(view.key()))
    }

    /// Whether both stage keys are of one kind, the column that is summed is of numbers, and each
    /// value that a cell is compared with is of the column's kind.
    pub fn has_one_kind(&self) -> bool
        ensures { result ≡ has_one_kind self.now }
    {
        self.sides_agree() && self.has_aggregate() && self.values_agree()
    }

    /// Whether both stage keys are of one kind.
    pub fn sides_agree(&self) -> bool
        ensures { result ≡ if_there (sides_agree self.now) self.now.right }
    {
        match &self.right {
            None => true,
            Some(right) => is_one_kind(
                self.kind(right.table(), right.key()),
                self.kind(self.left.table(), self.left.key()),
            ),
        }
    }

    fn values_agree(&self) -> bool
        ensures { result ≡ values_agree self.now }
    {
        self.side_agrees(&self.left)
            && match &self.right {
                None => true,
                Some(right) => self.side_agrees(right),
            }
    }

    /// Whether each value that the side compares a cell with is of the column's kind.
    pub fn side_agrees(&self, side: &Side) -> bool
        ensures { result ≡ side_agrees self.now side.now }
    {
        match self.tables.get(side.table()) {
            Some(table) => side.conditions_fit(table),
            None => side.has_no_conditions(),
        }
    }
}

impl ViewPlan {
    /// Whether the view has 1 to 8 shards, keeps 1 to 65536 keys, and its name is a name.
    pub fn is_small(&self) -> bool
        ensures { result ≡ view_is_small self.now }
    {
        is_from(1, 8, self.shards()) && is_from(1, 65536, self.cap()) && is_name(self.name())
    }

    fn is_not_stage(&self) -> bool
        ensures { result ≡ is_not_stage self.now.name }
    {
        self.name() != "stage"
    }
}
