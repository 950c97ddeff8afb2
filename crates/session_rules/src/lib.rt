//! The forms that values of a document take: what each must be, what it gives, and how the first fault is told with its path.
#![tactic(auto)]

pub mod fault;
pub mod form;
pub mod limit;
pub mod lists;
pub mod path;
pub mod tables;
pub mod text_list;
