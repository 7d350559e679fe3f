// The save inside an image, for a mapping that fits: reading it and writing into it, block by block.
#![tactic(auto)]

mod places;
pub mod reading;
pub mod writing;
