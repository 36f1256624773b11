// Document 01, "The book": the days of a book's window.

// A day that is closed has all its vesting and meter rows; one that is open may lack any.
#[derive(Clone, Copy, PartialEq, Eq, Debug)]
pub enum Day {
    Closed,
    Open,
}
