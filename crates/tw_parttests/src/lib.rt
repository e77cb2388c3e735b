//! Tests of what no command shows: values from outside, public calls that take memory and that the program doesn't make, once each, stores,
//! and pages that are kept near. Those of services and followers are in tw_servicetests.
#![tactic(auto)]

#[cfg(test)]
mod atlases;
#[cfg(test)]
mod audits;
#[cfg(test)]
mod caches;
#[cfg(test)]
mod events;
#[cfg(test)]
mod leaf_pages;
#[cfg(test)]
mod openings;
#[cfg(test)]
mod paged_trees;
#[cfg(test)]
mod promised;
#[cfg(test)]
mod shelves;
#[cfg(test)]
mod skip_lists;
#[cfg(test)]
mod stores;
#[cfg(test)]
mod summaries;
