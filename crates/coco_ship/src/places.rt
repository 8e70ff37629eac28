//! Places of pieces: as they come, and in sets in which they rise.

ghost use Rattle.std.specs.Prelude.{◌≡◌, ◌==◌, true, length, IfOk, OnOk};
ghost use Rattle.coco_msg.specs.Bytes.{ArePlaces};
ghost use Rattle.coco_ship.specs.Sets.{is_in, Adds, HasSame, Keeps, Misses};

use coco_types::{NoMemory, Sequence};
use std::alloc::Global;
use std::marker::Model;

/// Places as they came, in any order and any number of times.
pub(crate) type Arrivals = Sequence<u32>;

/// Places, each once, rising.
#[derive(Drop)]
pub(crate) struct PlaceSet {
    places: Vec<u32>,
}

impl Model for PlaceSet {
    ghost use Rattle.std.specs.Prelude.{ℕ, List};
    ghost use Rattle.std.specs.List.Sorted.{IsStrictlySortedBy};
    ghost use Rattle.std.specs.Ordering.{nat_cmp};

    ghost Value = { List ℕ };

    ghost view = { λ s. s.places.items };

    ghost invariant = { λ s. IsStrictlySortedBy nat_cmp s.places.items };
}

impl PlaceSet {
    // The set of these places. It takes no memory.
    pub fn of(mut places: Vec<u32>) -> PlaceSet
        ensures { HasSame places.items result }
    {
        places.sort_unstable();
        places.dedup();
        PlaceSet { places }
    }

    // Whether a place is in it.
    pub fn has(&self, place: u32) -> bool
        ensures { result ≡ is_in self.now place }
    {
        stands_by_count(self.places.as_slice(), place) || self.finds(place)
    }

    // Whether a search finds a place.
    fn finds(&self, place: u32) -> bool
        ensures { result ≡ is_in self.now place }
    {
        self.places.binary_search(&place).is_ok()
    }

    // Whether no place is in it.
    pub fn is_empty(&self) -> bool
        ensures { result ≡ (length self.now == 0) }
    {
        self.places.is_empty()
    }

    // Whether these are its places, rising.
    pub fn is_just(&self, places: &[u32]) -> bool
        ensures { result ≡ true → self.now ≡ places.now }
    {
        self.places.as_slice() == places
    }

    // The same set once more.
    pub fn copied(&self, alloc: Global) -> Result<PlaceSet, NoMemory>
        ensures { IfOk result (λ copy. copy ≡ self.now) }
    {
        let places = self.places.as_slice().to_vec(alloc)?;
        Ok(PlaceSet { places })
    }

    // Its places, rising.
    pub fn listed(&self, alloc: Global) -> Result<Vec<u32>, NoMemory>
        ensures places { IfOk result (λ places. places.items ≡ self.now) }
        ensures readable { IfOk result (λ places. ArePlaces places.items) }
    {
        let places = self.places.as_slice();
        if places.len() > u32::MAX as usize {
            return Err(NoMemory);
        }
        Ok(places.to_vec(alloc)?)
    }
}

// Whether a place stands where it does if none before it is left out, as is mostly so.
fn stands_by_count(places: &[u32], place: u32) -> bool
    ensures { result ≡ true → is_in places.now place ≡ true }
{
    match places.first() {
        Some(first) => places.get(place.wrapping_sub(*first) as usize) == Some(&place),
        None => false,
    }
}

// Adds a place.
pub(crate) fn add(places: &mut Arrivals, place: u32) -> Result<(), NoMemory>
    ensures { OnOk result (Adds places.old places.new place) }
{
    places.push(place)
}

// Those of the places that are in the set.
pub(crate) fn kept(alloc: Global, set: &PlaceSet, places: &[u32]) -> Result<PlaceSet, NoMemory>
    ensures { IfOk result (λ still. Keeps set.now places.now still) }
{
    let mut still = Arrivals::new(alloc);
    for place in places {
        if set.has(*place) {
            add(&mut still, *place)?;
        }
    }
    Ok(PlaceSet::of(still.into_vec()))
}

// Those of the places that aren't there.
pub(crate) fn missing(alloc: Global, there: &[u32], places: &[u32]) -> Result<PlaceSet, NoMemory>
    ensures { IfOk result (λ missing. Misses there.now places.now missing) }
{
    let had = PlaceSet::of(there.to_vec(alloc)?);
    if had.is_just(places) {
        return Ok(PlaceSet::of(Vec::new(alloc)));
    }
    lacked(alloc, &had, places)
}

// Those of the places that aren't in the set.
fn lacked(alloc: Global, had: &PlaceSet, places: &[u32]) -> Result<PlaceSet, NoMemory>
    ensures { IfOk result (λ missing. Misses had.now places.now missing) }
{
    let mut missing = Arrivals::new(alloc);
    for place in places {
        if !had.has(*place) {
            add(&mut missing, *place)?;
        }
    }
    Ok(PlaceSet::of(missing.into_vec()))
}
