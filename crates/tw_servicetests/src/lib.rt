//! Tests of services and followers on disks in memory. Most are by values that are worked out by hand, under the weak hasher; others are of
//! calls that are stopped or fail, or whose reads contradict each other.
#![tactic(auto)]

#[cfg(test)]
mod adoptions;
#[cfg(test)]
mod fickle;
#[cfg(test)]
mod followers;
#[cfg(test)]
mod labels;
#[cfg(test)]
mod making;
#[cfg(test)]
mod pieces;
#[cfg(test)]
mod services;
#[cfg(test)]
mod trees;
#[cfg(test)]
mod weak;
#[cfg(test)]
mod worked;
