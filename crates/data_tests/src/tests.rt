//! The tests.
mod evaluator;
mod filters;
mod gathers;
mod histories;
mod linked;
mod plans;
mod shared;
mod stages;
mod words;
