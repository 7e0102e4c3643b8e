//! The order of the positions of a table.
ghost use Rattle.std.specs.Prelude.{◌≡◌, ℕ, suc, ◌<◌, ◌-◌, ◌^◌, ◌==◌, ◌∷◌, [], length, map, slice_get, if◌then◌else◌, Some, OnOk, OnErr};
ghost use Rattle.linked_map.specs.Orders.{IsOrder, renamed, without};
ghost use Rattle.linked_map.specs.Rings.{older_at, newer_at, with_older, with_newer, parted, joined, told};

use std::alloc::{AllocError, Global};
use std::marker::Model;

/// The positions before and behind one, by age.
#[derive(Clone, Copy, Drop)]
pub(crate) struct Link {
    pub(crate) older: u32,
    pub(crate) newer: u32,
}

/// The positions `0..len` in some order, seen as the list of them from the latest to the oldest. Each
/// is linked to the next older one, and the oldest to the latest, so that no end is a case of its
/// own.
#[derive(Drop)]
pub(crate) struct Ring {
    links: Vec<Link>,
    latest: u32,
}

impl Model for Ring {
    ghost use Rattle.std.specs.Prelude.{ℕ, List};
    ghost use Rattle.linked_map.specs.Rings.{order_of, IsRing};

    ghost Value = { List ℕ };

    ghost view = { λ r. order_of r.links.items r.latest };

    ghost invariant = { λ r. IsRing r.links.items r.latest };
}

impl Ring {
    /// No position. Takes no memory.
    pub(crate) fn new(alloc: Global) -> Ring
        ensures { result ≡ [] }
    {
        Ring {
            links: Vec::new(alloc),
            latest: 0,
        }
    }

    /// How many positions there are. Constant time.
    pub(crate) fn len(&self) -> usize
        ensures len { result ≡ length self.now }
        ensures small { result < 2 ^ 32 }
        ensures order { IsOrder self.now }
    {
        self.links.len()
    }

    /// The oldest position. Constant time.
    pub(crate) fn oldest(&self) -> usize
        requires { 0 < length self.now }
        ensures { Some result ≡ slice_get self.now (length self.now - 1) }
    {
        self.links[self.latest as usize].newer as usize
    }

    /// The position that is one newer than this, and of the latest the oldest. Constant time.
    pub(crate) fn newer(&self, place: usize) -> usize
        requires { place < length self.now }
        ensures { (k : ℕ) → slice_get self.now (suc k) ≡ Some place → slice_get self.now k ≡ Some result }
    {
        self.links[place].newer as usize
    }

    /// The next position, as the latest. Errors: memory, or 2^32 - 1 positions are there; then all is
    /// as it was. Constant time, spread over many.
    pub(crate) fn push(&mut self) -> Result<(), AllocError>
        ensures pushed { OnOk result (self.new ≡ length self.old ∷ self.old) }
        ensures err { OnErr result (self.new ≡ self.old) }
    {
        let len = self.links.len();
        if len >= u32::MAX as usize {
            return Err(AllocError);
        }
        let place = len as u32;
        reserve_link(&mut self.links)?;
        self.links.push(Link {
            older: place,
            newer: place,
        })?;
        let first = if len == 0 { place } else { self.latest };
        join(&mut self.links, place, first);
        self.latest = place;
        Ok(())
    }

    /// Makes a position the latest. Constant time.
    pub(crate) fn to_front(&mut self, place: usize)
        requires { place < length self.old }
        ensures { self.new ≡ place ∷ without place self.old }
    {
        let _len = self.links.len();
        let place = place as u32;
        if place == self.latest {
            return;
        }
        part(&mut self.links, place);
        join(&mut self.links, place, self.latest);
        self.latest = place;
    }

    /// Takes a position out. The last position goes by its number from then on, as in
    /// `Vec::swap_remove`. Constant time.
    pub(crate) fn swap_remove(&mut self, place: usize)
        requires { place < length self.old }
        ensures { self.new ≡ map (renamed (length self.old - 1) place) (without place self.old) }
    {
        let last = (self.links.len() - 1) as u32;
        let to = place as u32;
        let latest = latest_without(&self.links, self.latest, to);
        part(&mut self.links, to);
        rename(&mut self.links, last, to);
        self.latest = moved(latest, last, to);
        self.links.swap_remove(place);
    }
}

/// Room for one link more, and for at most a sixteenth more than there are and four besides. Errors:
/// memory only; then all is as it was.
fn reserve_link(links: &mut Vec<Link>) -> Result<(), AllocError>
    ensures { links.new.items ≡ links.old.items }
{
    let len = links.len();
    if len == links.capacity() {
        links.reserve_exact((len / 16).saturating_add(5))?;
    }
    Ok(())
}

fn set_older(links: &mut Vec<Link>, place: u32, older: u32)
    requires { place < length links.old.items }
    ensures { links.new.items ≡ with_older links.old.items place older }
{
    links[place as usize].older = older;
}

fn set_newer(links: &mut Vec<Link>, place: u32, newer: u32)
    requires { place < length links.old.items }
    ensures { links.new.items ≡ with_newer links.old.items place newer }
{
    links[place as usize].newer = newer;
}

/// Links the neighbours of a place with each other.
fn part(links: &mut Vec<Link>, place: u32)
    requires place { place < length links.old.items }
    requires older { older_at links.old.items place < length links.old.items }
    requires newer { newer_at links.old.items place < length links.old.items }
    ensures { links.new.items ≡ parted links.old.items place }
{
    let Link { older, newer } = links[place as usize];
    set_older(links, newer, older);
    set_newer(links, older, newer);
}

/// Links a place in, as newer than the first of a ring.
fn join(links: &mut Vec<Link>, place: u32, first: u32)
    requires place { place < length links.old.items }
    requires first { first < length links.old.items }
    requires last { newer_at links.old.items first < length links.old.items }
    ensures { links.new.items ≡ joined links.old.items place first }
{
    let last = links[first as usize].newer;
    set_older(links, place, first);
    set_newer(links, place, last);
    set_older(links, last, place);
    set_newer(links, first, place);
}

/// Tells the neighbours of a place its new number, if that is another one.
fn rename(links: &mut Vec<Link>, from: u32, to: u32)
    requires place { from < length links.old.items }
    requires older { older_at links.old.items from < length links.old.items }
    requires newer { newer_at links.old.items from < length links.old.items }
    ensures { links.new.items ≡ (if from == to then links.old.items else told links.old.items from to) }
{
    if from == to {
        return;
    }
    let Link { older, newer } = links[from as usize];
    set_older(links, newer, to);
    set_newer(links, older, to);
}

/// The number of a place once `from` goes by the number `to`.
fn moved(place: u32, from: u32, to: u32) -> u32
    ensures { result ≡ renamed from to place }
{
    if place == from { to } else { place }
}

/// The latest place but one that is taken out.
fn latest_without(links: &Vec<Link>, latest: u32, place: u32) -> u32
    requires { place < length links.now.items }
    ensures { result ≡ renamed place (older_at links.now.items place) latest }
{
    let older = links[place as usize].older;
    moved(latest, place, older)
}
