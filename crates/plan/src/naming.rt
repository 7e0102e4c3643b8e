//! Texts of domains and edges, and reading them back.
ghost use Rattle.std.specs.Prelude.{◌≡◌, IfOk, string_bytes};
ghost use Rattle.plan.specs.Domains.{domain_text, edge_text, numbered, base_shards, first_with, domain_named, edge_named, IsDomainWith, IsEdgeWith};

use crate::domain::{DomainId, Edge, push_bases};
use crate::plan::Plan;
use std::alloc::{AllocError, Global};

impl Plan {
    /// The text of a domain: the name of its table or view, or `stage`, then `.` and its shard. A
    /// place that the plan does not have has no name. Errors: memory only.
    pub fn domain_text(&self, alloc: Global, domain: DomainId) -> Result<String, AllocError>
        ensures { IfOk result (λ s. string_bytes s ≡ domain_text self.now domain) }
    {
        match domain {
            DomainId::Base(table, shard) => numbered(alloc, self.table_name(table), shard),
            DomainId::Stage(shard) => numbered(alloc, "stage", shard),
            DomainId::View(view, shard) => numbered(alloc, self.view_name(view), shard),
        }
    }

    /// The text of an edge: the texts of its ends with `>` between them. Errors: memory only.
    pub fn edge_text(&self, alloc: Global, edge: Edge) -> Result<String, AllocError>
        ensures { IfOk result (λ s. string_bytes s ≡ edge_text self.now edge) }
    {
        let from = self.domain_text(alloc, edge.from)?;
        let to = self.domain_text(alloc, edge.to)?;
        format!(in alloc; "{from}>{to}")
    }

    /// The domain of the plan that has this text. Errors: memory only. Cost: the text of each
    /// domain, of which there are at most 104.
    pub fn domain_named(&self, alloc: Global, text: &str) -> Result<Option<DomainId>, AllocError>
        ensures domain { IfOk result (λ d. d ≡ domain_named self.now text.now) }
        // It is one of the plan's domains with this text, and each of them is found by its text.
        ensures exact { IfOk result (IsDomainWith self.now text.now) }
    {
        self.keeps_profile();
        let mut domains = self.base_shards(alloc)?;
        domains.append(&mut self.stage_shards(alloc)?)?;
        domains.append(&mut self.view_shards(alloc)?)?;
        self.first_with(alloc, text, &domains)
    }

    /// The edge of the plan that has this text. Errors: memory only. Cost: the text of each edge,
    /// of which there are at most 768.
    pub fn edge_named(&self, alloc: Global, text: &str) -> Result<Option<Edge>, AllocError>
        ensures edge { IfOk result (λ e. e ≡ edge_named self.now text.now) }
        // It is one of the plan's edges with this text, and each of them is found by its text.
        ensures exact { IfOk result (IsEdgeWith self.now text.now) }
    {
        self.keeps_profile();
        let edges = self.edges(alloc)?;
        self.first_with(alloc, text, &edges)
    }

    /// The shards of all tables, table by table.
    fn base_shards(&self, alloc: Global) -> Result<Vec<DomainId>, AllocError>
        ensures { IfOk result (λ ds. ds.items ≡ base_shards self.now) }
    {
        let mut out = Vec::new(alloc);
        for table in 0..self.tables() {
            push_bases(&mut out, table, self.table_shards(table))?;
        }
        Ok(out)
    }

    /// The first of these that has the text.
    fn first_with<T: HasText>(
        &self,
        alloc: Global,
        text: &str,
        all: &[T],
    ) -> Result<Option<T>, AllocError>
        ensures { IfOk result (λ x. x ≡ first_with (T.text_of self.now) text.now all.now) }
    {
        for one in all {
            if one.text(alloc, self)?.as_str() == text {
                return Ok(Some(*one));
            }
        }
        Ok(None)
    }
}

/// What has a text in a plan.
trait HasText: Copy {
    ghost use Rattle.std.specs.Prelude.{ℕ, List};
    ghost use Rattle.plan.specs.Layouts.{Layout};

    ghost text_of: { Layout → Self → List ℕ };

    fn text(self, alloc: Global, plan: &Plan) -> Result<String, AllocError>
        ensures { IfOk result (λ s. string_bytes s ≡ text_of plan.now self) };
}

impl HasText for DomainId {
    ghost text_of = { domain_text };

    fn text(self, alloc: Global, plan: &Plan) -> Result<String, AllocError> {
        plan.domain_text(alloc, self)
    }
}

impl HasText for Edge {
    ghost text_of = { edge_text };

    fn text(self, alloc: Global, plan: &Plan) -> Result<String, AllocError> {
        plan.edge_text(alloc, self)
    }
}

fn numbered(alloc: Global, name: &str, shard: usize) -> Result<String, AllocError>
    ensures { IfOk result (λ s. string_bytes s ≡ numbered name.now shard) }
{
    format!(in alloc; "{name}.{shard}")
}
