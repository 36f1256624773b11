// Document 01, "A submission file": a file is judged whole (crate `files`), and stored in a second pass where it is accepted. `submit::submit`
// is the call.
#![tactic(auto)]

mod places; // places.rt: where the words of a row stand
mod store; // store.rt: the words of an interval, a row, a section, a file
pub mod submit; // submit.rt: the call
