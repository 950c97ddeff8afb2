//! Strokes: the acts of a painter, what each of them paints, the texts of acts and motifs, and the spans that paint an
//! act.
#![tactic(auto)]

pub mod act;
mod corners;
pub mod fault;
pub mod laws;
mod line;
pub mod motif;
mod motif_rows;
pub mod motifs;
pub mod prepared;
mod spans;
pub mod spelling;
mod stamp;
