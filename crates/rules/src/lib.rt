// The calls of the rules, which hold no book: reference price, shares, tranches, profiles. Each is total: outside its ranges it refuses, and a
// refusal changes no lent word. The rounding of 003 and 000 stands in the functions below them, which the daily close calls too.
#![tactic(auto)]

pub mod ranges; // ranges.rt: the range of each kind of value
pub mod price; // price.rt: reference price V (003, 3.6.1)
pub mod share; // share.rt: shares (003, 2.5.8.1)
pub mod tranche; // tranche.rt: tranches (000, section 5.2)
pub mod profile; // profile.rt: profiles (document 02, P1; 000, section 2)
