#![tactic(auto)]

pub mod answer;
mod columns;
pub mod input;
pub mod judging;
pub mod printing;
