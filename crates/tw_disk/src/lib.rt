//! Disks by pages of 4,096 bytes, what a crash may leave of one, and the pages that a store shows to the crates above it.
//!
//! [`Disk`] is the device with the disk model: what a write, a barrier and a crash may do. [`Pages`] is a list of pages that only grows.
//! [`MemDisk`] and [`MemPages`] are both in memory, with calls that fail where a test plans it. The reads of a [`FickleDisk`] contradict
//! each other. [`Shelved`] keeps the pages read last in memory, over any pages: what it answers is what they answer. A [`Record`] tells
//! what a store's pages keep.
#![tactic(auto)]

mod call;
mod crash;
mod disk;
mod fickle_disk;
mod keep;
mod kept_page;
pub mod limits;
mod memory_disk;
mod memory_pages;
mod pages;
mod reading;
mod record;
mod shelf;
mod shelved;
mod walk_fault;

pub use disk::Disk;
pub use fickle_disk::FickleDisk;
pub use memory_disk::MemDisk;
pub use memory_pages::MemPages;
pub use pages::Pages;
pub use reading::read_page;
pub use record::Record;
pub use shelf::Shelf;
pub use shelved::Shelved;
pub use walk_fault::WalkFault;
