// What the program `settle` reads and prints: the items of its input, and its lines.
#![tactic(auto)]

pub mod line; // line.rt: a line of bytes
pub mod lines; // lines.rt: the lines
pub mod input; // input.rt: the items
