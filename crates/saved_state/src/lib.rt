// Item 9: the state of a block after a line, stored as bytes, checked, loaded, and resumed.
#![tactic(auto)]

pub mod blocks;
mod head;
mod load;
mod store;

pub use blocks::{resume_region, store_checkpoint};
