//! The texts of the built-in plan's places, and which values a column takes.
use super::cells::Cell::{self, Int, Text};
use super::cells::value;
use plan::domain::{DomainId, Edge};
use plan::kinds::Kind;
use plan::plan::Plan;
use std::alloc::{AllocError, Global};
use std::test::Fail;

// The helpers have no clause, so that what a call says is not carried on to the next one.
fn edges(alloc: Global, plan: &Plan) -> Result<Vec<Edge>, AllocError> {
    plan.edges(alloc)
}

fn push_text(alloc: Global, plan: &Plan, edge: Edge, lines: &mut String) -> Result<(), AllocError> {
    lines.push_str(plan.edge_text(alloc, edge)?.as_str())?;
    lines.push('\n')
}

/// Whether the plan's edges have these texts, a line each.
fn have_texts(alloc: Global, plan: &Plan, texts: &str) -> Result<bool, AllocError> {
    let mut lines = String::new(alloc);
    for edge in &edges(alloc, plan)? {
        push_text(alloc, plan, *edge, &mut lines)?;
    }
    Ok(lines.as_str() == texts)
}

const EDGES: &str = "notes.0>stage.0
stage.0>by_author.0
by_author.0>stage.0
stage.0>notes.0
";

#[test]
fn edges_have_texts(rt: HostRuntime) -> Result<(), Fail> {
    let plan = Plan::built_in(rt.alloc())?;
    assert!(rt; have_texts(rt.alloc(), &plan, EDGES)?);
    Ok(())
}

fn domain_named(alloc: Global, plan: &Plan, text: &str) -> Result<Option<DomainId>, AllocError> {
    plan.domain_named(alloc, text)
}

fn edge_named(alloc: Global, plan: &Plan, text: &str) -> Result<Option<Edge>, AllocError> {
    plan.edge_named(alloc, text)
}

const STAGE: DomainId = DomainId::Stage(0);

const VIEW: DomainId = DomainId::View(0, 0);

const EDGE: Edge = Edge {
    from: STAGE,
    to: VIEW,
};

fn are_named(alloc: Global, plan: &Plan) -> Result<bool, AllocError> {
    Ok(
        domain_named(alloc, plan, "notes.0")? == Some(DomainId::Base(0, 0))
            && domain_named(alloc, plan, "stage.0")? == Some(STAGE)
            && domain_named(alloc, plan, "by_author.0")? == Some(VIEW)
            && domain_named(alloc, plan, "stage.00")?.is_none()
            && edge_named(alloc, plan, "stage.0>by_author.0")? == Some(EDGE),
    )
}

#[test]
fn places_are_named(rt: HostRuntime) -> Result<(), Fail> {
    let plan = Plan::built_in(rt.alloc())?;
    assert!(rt; are_named(rt.alloc(), &plan)?);
    Ok(())
}

const TAKEN: [(Kind, Cell, bool); 9] = [
    (Kind::Int, Int(-9223372036854775808), true),
    (Kind::Int, Int(-9223372036854775809), false),
    (Kind::Int, Int(9223372036854775807), true),
    (Kind::Int, Int(9223372036854775808), false),
    (Kind::Int, Text("1"), false),
    (Kind::Text, Text(" ~"), true),
    (Kind::Text, Text("a\tb"), false),
    (Kind::Text, Text("\x7f"), false),
    (Kind::Text, Int(1), false),
];

#[test]
fn columns_take_cells_of_their_kind(rt: HostRuntime) -> Result<(), Fail> {
    for (at, (kind, cell, want)) in TAKEN.iter().enumerate() {
        assert!(rt;
            kind.takes(&value(rt.alloc(), *cell)?) == *want,
            "case {at}"
        );
    }
    Ok(())
}
