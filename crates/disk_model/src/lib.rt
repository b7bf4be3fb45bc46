//! A disk in memory, with all that a crash may leave of it, and a fuse that stops it after some calls.
//!
//! [`MemDisk`] keeps what each call replaced, so that the file as it was after each earlier call is known: a call costs
//! what it writes, however long the run. [`MemDisk::crash`] leaves one image of those that the file may leave now, and
//! costs what was written since the last sync. [`Fuse`] passes so many calls and then fails every call, so that a run
//! can be stopped at each of its disk calls.
//!
//! A call of a [`MemDisk`] fails only for want of memory, which is counted as a fault, and leaves the disk as it was.
#![tactic(auto)]

mod copy;
mod crash;
mod fuse;
mod image;
mod memory;
mod state;
#[cfg(test)]
mod tests;

pub use fuse::Fuse;
pub use image::each_image_is_picked;
pub use state::MemDisk;
