// Document 01, "A submission file": a file is judged in one pass that writes nothing, against the limits of a book that it never sees.
#![tactic(auto)]

pub mod fields; // fields.rt: one field: read where it is whole; a value
mod reader; // reader.rt: fields read one after another, each judged by its range
pub mod sections; // sections.rt: the form of each section's rows
pub mod positions; // positions.rt: where a row's fields stand, and where it ends
mod values; // values.rt: a row's values judged
pub mod judge; // judge.rt: a row, the rows of a section, the four sections, the end
