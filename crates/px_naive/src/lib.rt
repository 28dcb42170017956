//! A plain stepper: in each micro step it looks at every node of the plan.
//!
//! `naive` keeps the parts of a plan's world and hands the micro step all nodes; `begun` is what is begun in it. It is what
//! faster steppers are measured by: its contract is the trait `Stepper` of px_sem alone.
#![tactic(auto)]

mod begun;
mod naive;

pub use naive::Naive;
