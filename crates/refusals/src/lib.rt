#![tactic(auto)]

pub mod conversions;
pub mod kinds;
pub mod numbers;
