//! What is timed.
use criteria_model::Model;
use pair_enumeration::Classes;
use std::alloc::{AllocError, Global};

/// Lists the model's classes this often, and returns how many were listed in all.
pub fn list_often(alloc: Global, model: &Model, rounds: u32) -> Result<u64, AllocError> {
    let mut listed: u64 = 0;
    for _ in 0..rounds {
        let classes = Classes::list(alloc, model)?;
        listed = listed.wrapping_add(u64::from(classes.count()));
    }
    Ok(listed)
}

/// Looks each class up this often, and returns how many were found at their places in all.
pub fn find_often(classes: &Classes, rounds: u32) -> u64 {
    let mut found: u64 = 0;
    for _ in 0..rounds {
        found = found.wrapping_add(find_all(classes));
    }
    found
}

/// How many classes are found at their places.
fn find_all(classes: &Classes) -> u64 {
    let mut found: u64 = 0;
    for place in 1..classes.count() + 1 {
        if classes.place(&classes.class(place)) == Some(place) {
            found = found.wrapping_add(1);
        }
    }
    found
}
