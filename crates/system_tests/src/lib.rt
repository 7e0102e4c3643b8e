//! Tests of sessions of running systems.
#![tactic(auto)]

#[cfg(test)]
mod asks;
#[cfg(test)]
mod callers;
#[cfg(test)]
mod crews;
#[cfg(test)]
mod gates;
#[cfg(test)]
mod joins;
#[cfg(test)]
mod runs;
#[cfg(test)]
mod steps;
