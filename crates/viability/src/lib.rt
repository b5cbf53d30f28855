#![tactic(auto)]

pub mod candidate;
pub mod laxity;
pub mod own_list;
mod response;
mod task_set;
#[cfg(test)]
mod tests;
