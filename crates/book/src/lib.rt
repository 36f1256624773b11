// The book of document 01, judged well formed. A book is lent words; whoever calls need not trust them. The judge reads each word
// of the size once, slot by slot as they lie, and hands each slot, interval and account its part.
#![tactic(auto)]

pub mod day; // day.rt: the days of the window
pub mod cell; // cell.rt: an account's words at an interval
pub mod interval; // interval.rt: the words of an interval
pub mod slots; // slots.rt: the slots, of days and blank
pub mod places; // places.rt: where a day's slot starts
pub mod judge; // judge.rt: is a lent book well formed?
