//! The requests of an epoch that was given up.

ghost use Rattle.std.specs.Prelude.{◌≡◌, ◌<◌, ◌++◌, ◌∷◌, ℕ, List, [], All, Contains, length, replicate, filter_map, IfOk, IfSome, IfNone, OnOk, None};
ghost use Rattle.std.specs.List.Sorted.{IsNonDecreasingBy};
ghost use Rattle.coco_ast.specs.History.{request_of};
ghost use Rattle.coco_types.specs.declared.call.Request.{Request as Asked};
ghost use Rattle.coco_lost.specs.Requests.{ArePlaces, AreRequestsOf, IsPut};

use coco_types::{Done, Dones, NoMemory, Request};
use std::alloc::Global;

/// The requests of an epoch that was given up, made of their Dones, in the order of their ids. The calls are moved.
pub fn requests_back(alloc: Global, ids: &[u64], dones: Dones) -> Result<Vec<Request>, NoMemory>
    ensures { IfOk result (λ back. (requests : List Asked) → AreRequestsOf ids.now dones requests → back.items ≡ requests) }
{
    let places = places_of(alloc, ids)?;
    let mut slots = no_requests(alloc, ids.len())?;
    for done in dones.into_vec() {
        put(&mut slots, &places, done);
    }
    filled(alloc, slots)
}

// Each id with its place, rising by id.
fn places_of(alloc: Global, ids: &[u64]) -> Result<Vec<(u64, usize)>, NoMemory>
    ensures places { IfOk result (λ places. ArePlaces ids.now places.items) }
    ensures rising { IfOk result (λ places. IsNonDecreasingBy (λ place. place.0) places.items) }
{
    let mut places = Vec::new(alloc);
    for (place, id) in ids.iter().enumerate() {
        places.push((*id, place))?;
    }
    places.sort_unstable_by_key(|place| place.0);
    Ok(places)
}

// Room for so many requests, with none in it.
fn no_requests(alloc: Global, count: usize) -> Result<Vec<Option<Request>>, NoMemory>
    ensures { IfOk result (λ slots. slots.items ≡ replicate count None) }
{
    let mut slots = Vec::new(alloc);
    for _place in 0..count {
        slots.push(None)?;
    }
    Ok(slots)
}

// Where an id is.
fn place_of(places: &[(u64, usize)], id: u64) -> Option<usize>
    requires { IsNonDecreasingBy (λ place. place.0) places.now }
    ensures found { IfSome result (λ place. Contains places.now (id, place)) }
    ensures none { IfNone result ((place : ℕ) → Contains places.now (id, place) → ⊥) }
{
    match places.binary_search_by_key(&id, |place| place.0) {
        Ok(at) => Some(places[at].1),
        Err(_) => None,
    }
}

// Puts the request of a Done at the place of its id.
fn put(slots: &mut Vec<Option<Request>>, places: &[(u64, usize)], done: Done)
    requires within { All (λ place. place.1 < length slots.old.items) places.now }
    requires rising { IsNonDecreasingBy (λ place. place.0) places.now }
    ensures { IsPut places.now (request_of done) slots.old.items slots.new.items }
{
    if let Some(place) = place_of(places, done.id) {
        slots[place] = Some(Request {
            id: done.id,
            call: done.call,
        });
    }
}

// The requests that are there, in order.
fn filled(alloc: Global, slots: Vec<Option<Request>>) -> Result<Vec<Request>, NoMemory>
    ensures { IfOk result (λ requests. requests.items ≡ filter_map (λ slot. slot) slots.items) }
{
    let mut requests = Vec::new(alloc);
    for slot in slots {
        add(&mut requests, slot)?;
    }
    Ok(requests)
}

// Adds a request, where there is one.
fn add(requests: &mut Vec<Request>, slot: Option<Request>) -> Result<(), NoMemory>
    ensures { OnOk result (requests.new.items ≡ requests.old.items ++ filter_map (λ slot. slot) (slot ∷ [])) }
{
    if let Some(request) = slot {
        requests.push(request)?;
    }
    Ok(())
}
