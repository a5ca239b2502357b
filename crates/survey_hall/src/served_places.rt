//! Which connections were served, as their threads say.
use json_forms::NoMemory;
use std::alloc::Global;
use std::sync::{Mutex, Wait};

/// Places of connections that were served, until they are taken out.
#[derive(Drop)]
pub(crate) struct ServedPlaces {
    places: Mutex<Vec<usize>>,
}

impl ServedPlaces {
    /// No places, and room for `count` of them.
    ///
    /// # Errors
    ///
    /// Out of memory.
    pub(crate) fn reserve(alloc: Global, count: usize) -> Result<ServedPlaces, NoMemory> {
        let places = Vec::with_capacity(alloc, count)?;
        Ok(ServedPlaces {
            places: Mutex::new(places),
        })
    }

    /// Adds a place, where there is room. Each connection adds its own, once.
    pub(crate) fn add<R: Wait>(&self, rt: &R, place: usize) {
        let mut places = self.places.lock(rt);
        if places.len() < places.capacity() {
            places.push_reserved(place);
        }
    }

    /// Takes a place out; none where there is none.
    pub(crate) fn take<R: Wait>(&self, rt: &R) -> Option<usize> {
        self.places.lock(rt).pop()
    }
}
