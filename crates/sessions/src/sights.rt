//! What a session looks at of each shard of each view.
ghost use Rattle.std.specs.Prelude.{◌≡◌, ◌⊎◌, ◌<◌, ◌≤◌, ℕ, length, map, min, slice_get, slice_index_or};
ghost use Rattle.std.specs.Prelude.{IfOk, IfErr, IsFalse, IsTrue, Some};
ghost use Rattle.row.specs.{Bags.Each, Cells.datum_of};
ghost use Rattle.sessions.specs.{Sights.FindsOver, Sights.HasAll, Sights.IsCut, Sights.IsCutAt, Callers.AreLater, Callers.reader_of, Reads.IsHidden};
ghost use Rattle.model.specs.Histories.{len_at, view_shard};
ghost use Rattle.book.specs.Fronts.{FrontView};
ghost use Rattle.packet.specs.Readers.{readers as readers_of};
ghost use Rattle.schedule.specs.Codes.{reader_in};

use book::cut::{Cut, Cuts};
use book::front::Front;
use book::law::Naming;
use book::part::Part;
use key_rows::answer_rows::AnswerRows;
use model::lengths::Lengths;
use packet::reader::Reader;
use routes::routes::Routes;
use row::refused::Refused;
use row::value::Value;
use shown::reader::ShownReader;
use std::alloc::Global;
use std::marker::Model;

/// A reader of each shard of each view, in order, seen as what each has seen last.
#[derive(Drop)]
pub(crate) struct Sights<J: Naming> {
    readers: Vec<ShownReader<J>>,
}

impl<J: Naming> Model for Sights<J> {
    ghost use Rattle.std.specs.Prelude.{◌≡◌, List, map};
    ghost use Rattle.packet.specs.Readers.{readers as readers_of};
    ghost use Rattle.shown.specs.Snapshots.{Snapshot};
    ghost use Rattle.sessions.specs.Callers.{reader_of};

    ghost Value = { List Snapshot };

    ghost view = { λ s. s.readers.items };

    ghost invariant = { λ s. map reader_of s.readers.items ≡ readers_of J.plan };
}

impl<J: Naming> Sights<J> {
    /// What these readers have seen.
    pub(crate) fn new(readers: Vec<ShownReader<J>>) -> Sights<J>
        requires { map reader_of readers.items ≡ readers_of J.plan }
        ensures { result ≡ readers.items }
    {
        Sights { readers }
    }

    /// Looks a key up in what is shown of its view shard, and says whether it is shown: a hit puts its
    /// rows into `rows` and its cut into `cut`. Errors: `NoMemory`; it may then have seen more.
    #[inline(always)]
    pub(crate) fn look(
        &mut self,
        alloc: Global,
        place: usize,
        view: usize,
        key: &Value,
        rows: &mut AnswerRows,
        cut: &mut Option<Cut<J>>,
    ) -> Result<bool, Refused>
        requires place { slice_get (readers_of J.plan) place ≡ Some (record {
          view = view;
          shard = view_shard J.plan view (datum_of key.now);
        }) }
        ensures later { AreLater self.old self.new }
        ensures shards { map reader_of self.new ≡ readers_of J.plan }
        ensures hit { IfOk result (λ hit. IsTrue hit
            → FindsOver J.plan self.new view (datum_of key.now) rows.new cut.new) }
        ensures miss { IfOk result (λ hit. IsFalse hit
            → IsHidden J.plan self.new view (datum_of key.now)) }
        ensures only { IfErr result (λ e. e ≡ Refused.NoMemory) }
    {
        self.readers[place].look(alloc, key, rows, cut)
    }

    // They are of all shards of all views.
    fn are_all(&self)
        ensures { map reader_of self.now ≡ readers_of J.plan }
    {
        let _readers = &self.readers;
    }

    // The cut of what is now shown of the shard at a place.
    fn cut_at(&mut self, alloc: Global, place: usize) -> Result<Cut<J>, Refused>
        requires { place < length self.old }
        ensures later { AreLater self.old self.new }
        ensures cut { IfOk result (λ c. IsCutAt self.old self.new place c) }
        ensures only { IfErr result (λ e. e ≡ Refused.NoMemory) }
    {
        self.readers[place].cut(alloc)
    }

    /// The cut of what is now shown of each shard of each view, for each stage shard no less of
    /// each source than the fronts. Errors: `Behind` where one has less, and `NoMemory`; it may
    /// then have seen more.
    pub(crate) fn cuts(
        &mut self,
        alloc: Global,
        routes: &Routes<J>,
        part: &Part<J>,
        looked: &[Front<J>],
    ) -> Result<Cuts<J>, Refused>
        ensures later { AreLater self.old self.new }
        ensures cuts { IfOk result (λ c. Each (IsCut J.plan looked.now c) self.new) }
        ensures only { IfErr result (λ e. (e ≡ Refused.NoMemory) ⊎ (e ≡ Refused.Behind)) }
    {
        self.are_all();
        let Ok(mut cuts) = Cuts::zeros(alloc, routes.plan(), part) else {
            return Err(Refused::NoMemory);
        };
        for place in 0..routes.readers().len() {
            let cut = match self.cut_at(alloc, place) {
                Ok(cut) => cut,
                Err(refused) => return Err(refused),
            };
            if !has_all(cut.lengths(), routes.plan().stages(), looked) {
                return Err(Refused::Behind);
            }
            let Reader { view, shard } = reader_at(routes, place);
            cuts.set(view, shard, cut);
        }
        Ok(cuts)
    }
}

impl<J: Naming> Sights<J> {
    ghost use Rattle.protocol.specs.Bases.{last_number};
    ghost use Rattle.sessions.specs.Counts.{IsAskedAt, asked_of};

    // How many requests the shard at a place had sent, where that is asked for, else 0.
    fn asked_at(&mut self, place: usize, own: bool) -> Result<u64, Refused>
        requires { place < length self.old }
        ensures later { AreLater self.old self.new }
        ensures asked { IfOk result (λ n. IsAskedAt self.old self.new place own n) }
        ensures only { IfErr result (λ e. e ≡ Refused.NoMemory) }
    {
        if own {
            self.readers[place].asked()
        } else {
            Ok(0)
        }
    }

    /// How many requests the shards of a view had sent in all, at most the greatest number. Errors:
    /// `NoMemory`; it may then have seen more.
    pub(crate) fn asked(&mut self, routes: &Routes<J>, view: usize) -> Result<u64, Refused>
        ensures later { AreLater self.old self.new }
        ensures sum { IfOk result (λ n. n ≡ min (asked_of view self.new) last_number) }
        ensures only { IfErr result (λ e. e ≡ Refused.NoMemory) }
    {
        self.are_all();
        let mut sum: u64 = 0;
        for place in 0..routes.readers().len() {
            let own = reader_at(routes, place).view == view;
            match self.asked_at(place, own) {
                Ok(asked) => sum = sum.saturating_add(asked),
                Err(refused) => return Err(refused),
            }
        }
        Ok(sum)
    }
}

// The shard of a view at a place among all of them.
fn reader_at<J: Naming>(routes: &Routes<J>, place: usize) -> Reader
    requires place { place < length (readers_of J.plan) }
    ensures { slice_get (readers_of J.plan) place ≡ Some (reader_in result) }
{
    match routes.readers().get(place) {
        Some(reader) => *reader,
        None => unreachable!(),
    }
}

// Whether for each stage shard the cut has no less of each source than the fronts.
fn has_all<J: Naming>(cut: &Lengths, stages: usize, looked: &[Front<J>]) -> bool
    requires stages { stages ≡ J.plan.stages }
    ensures { IsTrue result → HasAll J.plan looked.now cut.now }
{
    for stage in 0..stages {
        if !has_line(cut, stage, looked) {
            return false;
        }
    }
    true
}

// Whether for a stage shard the cut has no less of each source than the fronts.
fn has_line<J: Naming>(cut: &Lengths, stage: usize, looked: &[Front<J>]) -> bool
    ensures { IsTrue result → ((i : ℕ) → i < length looked.now
        → slice_index_or (map (λ (f : FrontView). f.len) looked.now) i 0
        ≤ len_at cut.now stage i) }
{
    for source in 0..looked.len() {
        if cut.len(stage, source) < looked[source].len() {
            return false;
        }
    }
    true
}
