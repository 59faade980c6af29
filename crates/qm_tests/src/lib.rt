//! Tests of what no clause says, and no run of the program shows.
#![tactic(auto)]

#[cfg(test)]
mod base;
#[cfg(test)]
mod bed;
#[cfg(test)]
mod caches;
#[cfg(test)]
mod countdown;
#[cfg(test)]
mod diffs;
#[cfg(test)]
mod expiry;
#[cfg(test)]
mod files;
#[cfg(test)]
mod fixed;
#[cfg(test)]
mod grafts;
#[cfg(test)]
mod lengths;
#[cfg(test)]
mod overlays;
#[cfg(test)]
mod padding;
#[cfg(test)]
mod refusals;
#[cfg(test)]
mod scans;
#[cfg(test)]
mod trees;
