//! What a session's run may leave, told without the run: plans, legal logs, and the events of a run one at a time with the law of all
//! their interleavings.
#![tactic(auto)]

pub mod laws;
