// The opening of document 01's book, and what its judge asks before the slots: the header, the size, the sums. A book is lent words; whoever
// calls need not trust them.
#![tactic(auto)]

pub mod words; // words.rt: tests of one word, and of zeros
pub mod header; // header.rt: the header, the size, the sums
pub mod open; // open.rt: opening
