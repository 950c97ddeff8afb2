//! The rules of the cloth: a design, its raw and bound paper, the drawdown, and what a float is. The functions are the plain ones:
//! each computes its definition from scratch.
#![tactic(auto)]

pub mod cloth;
pub mod design;
pub mod drawdown;
pub mod first_float;
pub mod float_run;
pub mod laws;
mod long_columns;
