//! Where the searches in clauses go on.
use std::alloc::Global;

/// For each clause, by its number, where the search for a literal in it goes on. Any place will do, so nothing is said of
/// these, and where a growth is refused none is noted.
#[derive(Drop)]
pub(crate) struct Starts {
    // those of the clauses up to the last one for which a place was noted
    places: Vec<u32>,
}

impl Starts {
    /// All at the front. It takes no memory.
    pub(crate) fn new(alloc: Global) -> Starts {
        Starts {
            places: Vec::new(alloc),
        }
    }

    /// Where the search in a clause goes on.
    pub(crate) fn at(&self, k: usize) -> usize {
        match self.places.get(k) {
            None => 0,
            Some(place) => *place as usize,
        }
    }

    /// Notes where the search in a clause goes on.
    pub(crate) fn note(&mut self, k: usize, place: u32) {
        if k >= self.places.len() {
            let _ = self.places.resize(k.saturating_add(1), 0);
        }
        match self.places.get_mut(k) {
            None => {}
            Some(noted) => *noted = place,
        }
    }
}
