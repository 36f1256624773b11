// The daily close of document 01: the search for absent data, and what an accepted close writes.
//
// How demand 3 reaches these functions: the rule book's theorem speaks of runs of calls (`Promises.Run`) in which each submission keeps
// `SubmitPromise` and each close `ClosePromise`, from a book that `OpenPromise` left. These are the contracts of `submission::submit::submit`,
// `close::close` and `opening::open::open_book`, word for word. So every list of calls of these functions on one newly opened book is such a run,
// and `Theorems.demand3` holds of it.
#![tactic(auto)]

pub mod search; // search.rt: the first absent datum
pub mod slots; // slots.rt: r and its edition
pub mod statement; // statement.rt: the amounts of a close
pub mod ledger; // ledger.rt: balances and differences grow
pub mod write; // write.rt: what an accepted close writes
pub mod close; // close.rt: the close
