//! What a cache of keys keeps.

use qm_build::Cache;
use std::alloc::{AllocError, Global};
use std::num::NonZeroUsize;
use std::test::Fail;

// How many keys there may be; the locations of keys that are put in, one after another, or, after `-`, taken out; and those that
// are there then.
const ROWS: &str = "\
16|0 1 2 3 4 5 6 7 8 9 10 11 12 13 14 15 100|1 2 3 4 5 6 7 8 9 10 11 12 13 14 15 100
16|0 1 2 3 4 5 6 7 8 9 10 11 12 13 14 15 -3 100|0 1 2 4 5 6 7 8 9 10 11 12 13 14 15 100
1|1 2|2
";

// A number of decimal digits, or 0.
fn number(word: &str) -> u64 {
    word.parse().unwrap_or(0)
}

// Puts in a key, or takes one out.
fn step(cache: &mut Cache<()>, word: &str) {
    match word.strip_prefix("-") {
        Some(location) => cache.remove(number(location)),
        None => cache.put(number(word), ()),
    }
}

// Whether a location is among these.
fn is_among(location: u64, locations: &str) -> bool {
    for word in locations.split_ascii_whitespace() {
        if number(word) == location {
            return true;
        }
    }
    false
}

// Whether the cache has keys for these locations, and for no others up to 200.
fn has_just(cache: &Cache<()>, locations: &str) -> bool {
    for location in 0..200 {
        if cache.get(location).is_some() != is_among(location, locations) {
            return false;
        }
    }
    true
}

// Whether a row is so.
fn is_right(alloc: Global, row: &str) -> Result<bool, AllocError> {
    let mut parts = row.split('|');
    let capacity = parts.next().map_or(0, number) as usize;
    let capacity = NonZeroUsize::new(capacity).unwrap_or(NonZeroUsize::MIN);
    let mut cache = Cache::new(alloc, capacity)?;
    for word in parts.next().unwrap_or("").split_ascii_whitespace() {
        step(&mut cache, word);
    }
    Ok(has_just(&cache, parts.next().unwrap_or("?")))
}

#[test]
fn a_cache_lets_the_smallest_location_go(rt: HostRuntime) -> Result<(), Fail> {
    for row in ROWS.lines() {
        assert!(rt; is_right(rt.alloc(), row)?);
    }
    Ok(())
}
