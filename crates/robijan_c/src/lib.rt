// What a program in another language links: the calls of the crate `robijan` as C functions. Nothing is decided here, and no call asks
// anything of its caller but that a slice, passed as a pointer and then a length, is one.
#![tactic(auto)]

mod book_calls; // book_calls.rt: open, submit, close, judge, and the size of a book
mod calendar_calls; // calendar_calls.rt: dates, statement and due days
mod packed_calls; // packed_calls.rt: statements in packed decimal, written and read
mod rules_calls; // rules_calls.rt: reference price, shares, tranches, profiles
