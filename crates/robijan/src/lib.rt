// Each call of documents 01 and 02 for a program in another language, which links them as C functions (crate `robijan_c`). Every input is
// answered, by the numbers of document 01's table; no call asks anything of its caller.
#![tactic(auto)]

pub mod book_calls; // book_calls.rt: open, submit, close, judge, and the size of a book
pub mod rules_calls; // rules_calls.rt: reference price, shares, tranches, profiles
pub mod packed_calls; // packed_calls.rt: statements in packed decimal, written and read
pub mod calendar_calls; // calendar_calls.rt: dates, statement and due days
