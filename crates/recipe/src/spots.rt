//! Where a draft fails a check. Only texts for people come of it: which check fails first is said
//! by the checks themselves.
use document::error::{Part, Spot};
use plan::draft::Draft;
use plan::names::is_name;
use plan::plan::ViewPlan;
use plan::stage::Side;
use plan::table::Table;

const NAME: &str = "a name of 1 to 32 letters, digits and `_` that begins with a letter";

const COLUMN_NAMES: &str = "1 to 16 columns, each with a name of 1 to 32 letters, digits and `_`";

const OWN_NAME: &str = "a name of its own, other than `stage`";

const A_TABLE: &str = "the name of a table";

const A_COLUMN: &str = "a column of the table";

const A_LEFT_COLUMN: &str = "a column of the left table";

const SMALL_CONDITIONS: &str = "at most 8 conditions, with texts that a cell can hold";

fn is_from(least: usize, most: usize, number: usize) -> bool {
    least <= number && number <= most
}

/// Where a limit is passed.
pub(crate) fn limit_spot(draft: &Draft) -> Spot {
    if !is_from(1, 8, draft.tables.len()) {
        return Spot::new(Part::Recipe, "table", "1 to 8 tables");
    }
    for (at, table) in draft.tables.iter().enumerate() {
        if !table.is_small() {
            return table_limit(Part::Table(at), table);
        }
    }
    if !is_from(1, 8, draft.stages) {
        return Spot::new(Part::Stage, "shards", "1 to 8 shards");
    }
    if !draft.left.is_small() {
        return Spot::new(Part::Stage, "left_where", SMALL_CONDITIONS);
    }
    if !draft.right_is_small() {
        return Spot::new(Part::Stage, "right_where", SMALL_CONDITIONS);
    }
    if !is_from(1, 65536, draft.cap) {
        return Spot::new(Part::Stage, "cap", "1 to 65536");
    }
    for (at, view) in draft.views.iter().enumerate() {
        if !view.is_small() {
            return view_limit(Part::View(at), view);
        }
    }
    Spot::new(Part::Recipe, "view", "1 to 4 views")
}

// The name, where it has not the form of one, or the shards, where they are not 1 to 8, or else the
// other spot.
fn name_or_shards(part: Part, name: &str, shards: usize, other: Spot) -> Spot {
    if !is_name(name) {
        Spot::new(part, "name", NAME)
    } else if !is_from(1, 8, shards) {
        Spot::new(part, "shards", "1 to 8 shards")
    } else {
        other
    }
}

fn table_limit(part: Part, table: &Table) -> Spot {
    let columns = Spot::new(part, "columns", COLUMN_NAMES);
    name_or_shards(part, table.name(), table.shards(), columns)
}

fn view_limit(part: Part, view: &ViewPlan) -> Spot {
    let cap = Spot::new(part, "cap", "1 to 65536");
    name_or_shards(part, view.name(), view.shards(), cap)
}

/// Where a name is not its own.
pub(crate) fn name_spot(draft: &Draft) -> Spot {
    for (at, table) in draft.tables.iter().enumerate() {
        let others = &draft.tables[at + 1..];
        if table.name() == "stage" || is_named(others, &draft.views, table.name()) {
            return Spot::new(Part::Table(at), "name", OWN_NAME);
        }
        if !table.columns_are_apart() {
            return Spot::new(Part::Table(at), "columns", "a name for each column");
        }
    }
    for (at, view) in draft.views.iter().enumerate() {
        let others = &draft.views[at + 1..];
        if view.name() == "stage" || is_named(&[], others, view.name()) {
            return Spot::new(Part::View(at), "name", OWN_NAME);
        }
    }
    Spot::new(Part::Recipe, "name", OWN_NAME)
}

/// Whether one of these tables or views has the name.
fn is_named(tables: &[Table], views: &[ViewPlan], name: &str) -> bool {
    for table in tables {
        if table.name() == name {
            return true;
        }
    }
    for view in views {
        if view.name() == name {
            return true;
        }
    }
    false
}

/// Where a table or a column is named that there is not.
pub(crate) fn unknown_spot(draft: &Draft) -> Spot {
    for (at, table) in draft.tables.iter().enumerate() {
        if table.key() >= table.width() {
            return Spot::new(Part::Table(at), "key", A_COLUMN);
        }
    }
    if !draft.side_is_known(&draft.left) {
        return side_spot(draft, &draft.left, "left", "left_key", "left_where");
    }
    if let Some(right) = &draft.right
        && !draft.side_is_known(right)
    {
        return side_spot(draft, right, "right", "right_key", "right_where");
    }
    if !draft.sum_is_known() {
        return Spot::new(Part::Stage, "sum", A_COLUMN);
    }
    for (at, view) in draft.views.iter().enumerate() {
        if !draft.has_column(view.key()) {
            return Spot::new(Part::View(at), "key", A_LEFT_COLUMN);
        }
    }
    Spot::new(Part::Recipe, "key", A_COLUMN)
}

fn side_spot(
    draft: &Draft,
    side: &Side,
    table: &'static str,
    key: &'static str,
    conditions: &'static str,
) -> Spot {
    if side.table() >= draft.tables.len() {
        Spot::new(Part::Stage, table, A_TABLE)
    } else if side.key() >= draft.width_at(side.table()) {
        Spot::new(Part::Stage, key, A_COLUMN)
    } else {
        Spot::new(Part::Stage, conditions, A_COLUMN)
    }
}

/// Where one table reaches the views by two ways.
pub(crate) fn path_spot() -> Spot {
    Spot::new(Part::Stage, "right", "another table than that of `left`")
}

/// Where a view is keyed by another column than it may be.
pub(crate) fn key_spot(draft: &Draft) -> Spot {
    for (at, view) in draft.views.iter().enumerate() {
        if view.key() >= draft.left_width() {
            return Spot::new(Part::View(at), "key", A_LEFT_COLUMN);
        }
        if !draft.has_key(view.key()) {
            return Spot::new(Part::View(at), "key", "the stage's `left_key`");
        }
    }
    Spot::new(Part::Recipe, "key", A_LEFT_COLUMN)
}

/// Where kinds differ.
pub(crate) fn kind_spot(draft: &Draft) -> Spot {
    if !draft.sides_agree() {
        Spot::new(
            Part::Stage,
            "right_key",
            "a column of the kind of `left_key`",
        )
    } else if !draft.has_aggregate() {
        Spot::new(Part::Stage, "sum", "a column of kind `int`")
    } else if !draft.side_agrees(&draft.left) {
        Spot::new(Part::Stage, "left_where", "values of the columns' kinds")
    } else {
        Spot::new(Part::Stage, "right_where", "values of the columns' kinds")
    }
}
