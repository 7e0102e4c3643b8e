//! The pieces in hand of a key that waits, with one place for each source.
ghost use Rattle.std.specs.Prelude.{◌≡◌, ◌<◌, length, true, None, IfOk, OnOk, OnErr, replicate, slice_set, slice_get};
ghost use Rattle.std.specs.Option.{ForSome, option_map};
ghost use Rattle.partial.specs.States.{given, completes, is_missing, is_whole, somes, is_here, PieceFits, piece_changed};

use crate::gather::Gather;
use std::alloc::{AllocError, Global};
use std::marker::Model;

/// The pieces of a gather, seen as a list with one place for each source.
#[derive(Drop)]
pub struct Pieces<E> {
    places: Vec<Option<E>>,
}

impl<E> Model for Pieces<E> {
    ghost use Rattle.std.specs.Prelude.{List, Option};

    ghost Value = { List (Option E) };

    ghost view = { λ p. p.places.items };
}

impl<E: Drop> Pieces<E> {
    /// A place for each source, and no piece. Errors: memory only. Cost: the number of sources.
    pub fn new(alloc: Global, sources: usize) -> Result<Pieces<E>, AllocError>
        ensures { IfOk result (λ p. p ≡ replicate sources None) }
    {
        let mut places = Vec::new(alloc);
        for _ in 0..sources {
            places.push(None)?;
        }
        Ok(Pieces { places })
    }

    /// Puts the piece in, where the source has a place and no piece, and says whether now each
    /// source's piece is here by it. Takes no memory. Cost: the number of sources.
    pub fn put(&mut self, source: usize, piece: E) -> bool
        ensures given { self.new ≡ given source piece self.old }
        ensures completes { result ≡ completes source piece self.old }
    {
        if self.lacks(source) {
            self.places[source] = Some(piece);
            self.is_whole()
        } else {
            false
        }
    }

    /// Whether the source has its place and no piece in it. Constant time.
    fn lacks(&self, source: usize) -> bool
        ensures missing { result ≡ is_missing (slice_get self.now source) }
        ensures within { result ≡ true → source < length self.now }
    {
        source < self.places.len() && self.places[source].is_none()
    }

    /// Whether the piece of each source is here. Cost: the number of sources.
    fn is_whole(&self) -> bool
        ensures { result ≡ is_whole self.now }
    {
        self.places.iter().all(|place| place.is_some())
    }

    /// Drops the piece of the source, and says whether it was here. Takes no memory. Constant
    /// time.
    pub fn drop_piece(&mut self, source: usize) -> bool
        ensures dropped { self.new ≡ slice_set self.old source None }
        ensures here { result ≡ is_here (slice_get self.old source) }
    {
        if source < self.places.len() && self.places[source].is_some() {
            self.places[source] = None;
            true
        } else {
            false
        }
    }

    /// The pieces that are here, in the order of the sources. Errors: memory only. Cost: the number
    /// of sources.
    #[tactic(auto, using(crate::proofs::InHand::somes_push_none, crate::proofs::InHand::somes_push_some))]
    pub fn into_pieces(self, alloc: Global) -> Result<Vec<E>, AllocError>
        ensures { IfOk result (λ v. v.items ≡ somes self) }
    {
        let mut all = Vec::new(alloc);
        for place in self.places {
            if let Some(piece) = place {
                all.push(piece)?;
            }
        }
        Ok(all)
    }
}

impl<E: Gather> Pieces<E> {
    /// Applies the change to the piece of the source, where it is here; else drops the change.
    /// Errors: memory only; then all is as it was.
    pub fn apply(
        &mut self,
        alloc: Global,
        source: usize,
        change: &E::Change,
    ) -> Result<(), AllocError>
        requires { PieceFits E.fits change.now (slice_get self.old source) }
        ensures changed { OnOk result (self.new ≡ piece_changed E.plus change.now source self.old
            (slice_get self.old source)) }
        ensures err { OnErr result (self.new ≡ self.old) }
    {
        if source < self.places.len() {
            apply_at(&mut self.places[source], alloc, change)
        } else {
            Ok(())
        }
    }
}

/// Applies the change to the piece, if there is one.
fn apply_at<E: Gather>(
    place: &mut Option<E>,
    alloc: Global,
    change: &E::Change,
) -> Result<(), AllocError>
    requires { ForSome place.old (λ p. E.fits p change.now) }
    ensures changed { OnOk result (place.new ≡ option_map (λ p. E.plus p change.now) place.old) }
    ensures err { OnErr result (place.new ≡ place.old) }
{
    match place {
        Some(piece) => piece.apply(alloc, change),
        None => Ok(()),
    }
}
