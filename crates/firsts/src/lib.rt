#![tactic(auto)]

pub mod job;
pub mod order;
