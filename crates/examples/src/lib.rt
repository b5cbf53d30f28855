#![tactic(auto)]

pub mod small_tables;
