//! Tests of `plain`, `partial`, `linked_map` and `ops`: that calls which take memory succeed, and
//! examples whose answers are known from outside the code.
#![tactic(auto)]

#[cfg(test)]
mod tests;
