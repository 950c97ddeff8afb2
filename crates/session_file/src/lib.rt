//! The session file: the model of a session, the table of the file's rules, and the reader that tells the first broken one.
#![tactic(auto)]

mod act_form;
mod assembly;
mod colour_table;
pub mod counts;
mod design_table;
mod document;
pub mod draft;
mod head;
mod image;
pub mod laws;
mod motif_table;
mod numbers;
mod reading;
pub mod session;
mod shift_table;
mod tie_table;
mod trade_forms;
mod trial;
mod words;
