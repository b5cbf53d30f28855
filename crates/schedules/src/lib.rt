#![tactic(auto)]

pub mod call;
pub mod calls;
pub mod run;
pub mod slot;
mod steps;
pub mod verdict;
