#![tactic(auto)]

pub mod commands;
pub mod judging;
pub mod naming;
pub mod outputs;
pub mod printing;
pub mod rounds;
#[cfg(test)]
mod tests;
pub mod words;
