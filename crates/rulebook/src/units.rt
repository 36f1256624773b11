// Document 01, "Units and ranges", and the ranges that other chapters name. The code has these figures from here alone.

// 31 December 2099, in days since 1 January 2000.
pub const LAST_DAY: usize = 36524;

pub const INTERVALS: usize = 48;

// kWh of an interval; a metered injection is so much either way.
pub const MOST_QUANTITY: i64 = 10000000;

pub const LEAST_INJECTION: i64 = -MOST_QUANTITY;

// kWh of all non-contestable consumers in an interval.
pub const MOST_LOAD: i64 = 1000000000;

// Cents per MWh, either way.
pub const MOST_PRICE: i64 = 1000000;

pub const LEAST_PRICE: i64 = -MOST_PRICE;

// kWh times cents per MWh is thousandths of a cent.
pub const THOUSANDTHS_PER_CENT: u64 = 1000;

// "Reference price V", "Shares and tranches": facilities, accounts, and R of a call.
pub const MOST_FACILITIES: usize = 4;

pub const MOST_ACCOUNTS: usize = 32;

pub const LEAST_RESIDUAL: i64 = -1280000000;

pub const MOST_RESIDUAL: i64 = 1000000000;

// Document 02, P1: the day's total, the contracted quantity of a Gas Balancing Period, and a day's such periods.
pub const MOST_DAY_KWH: i64 = 480000000;

pub const MOST_CONTRACTED: i64 = 10000000;

pub const BALANCING_PERIODS: usize = 24;

// Tender vesting pairs of a vesting row.
pub const TENDERS: usize = 3;

// "The book": L and H at most, and 1 January 2026, the earliest first day.
pub const MOST_LAG: usize = 75;

pub const MOST_HORIZON: usize = 92;

pub const EARLIEST_FIRST_DAY: usize = 9497;

// A balance grows by no more cents a closed day, either way.
pub const DAY_BOUND: usize = 4800000000000;

// Document 02, P5: a closed day leaves no more thousandths of a cent of an account, either way.
pub const DIFFERENCE_BOUND: usize = 500;
