#![tactic(auto)]

pub mod calls;
pub mod equality;
mod euclid;
pub mod of_tasks;
pub mod table;
pub mod task;
