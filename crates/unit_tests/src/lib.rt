//! Tests of `row`, `plan`, `model`, `base` and `packet`, by examples whose answers are known from
//! outside the code, and an index beside a scan; of a packet out of turn; and of `links`, what
//! threads find of each other, of which no contract speaks.
#![tactic(auto)]

#[cfg(test)]
mod tests;
