#![tactic(auto)]

mod bytes;
mod cursor;
mod fields;
mod puts;
pub mod reading;
mod records;
mod separators;
pub mod writing;
