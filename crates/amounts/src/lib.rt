// Document 01, "Day amount": an account's posted amount for a closing day, from the slots of D and of r. A slot is lent words in range; nothing
// here knows where in the book it stands.
#![tactic(auto)]

pub mod cell; // cell.rt: the amounts of one account at one interval
pub mod interval; // interval.rt: R and S of one interval
pub mod slot; // slot.rt: a day's intervals
pub mod settled; // settled.rt: the shares of a settled day
pub mod shares; // shares.rt: the shares of a day by any R and S
pub mod total; // total.rt: the running total of a day
pub mod day; // day.rt: the posted amount of a day
