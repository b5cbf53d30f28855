#![tactic(auto)]

pub mod background;
pub mod background_calls;
pub mod background_list;
pub mod deadline;
pub mod fixed;
pub mod keyed;
mod keys;
pub mod ordering;
pub mod promotion;
pub mod two_phase;
