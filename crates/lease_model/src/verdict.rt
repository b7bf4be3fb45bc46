use crate::row::BookRow;

/// Whether an act is legal, and else the row that it clashes with.
#[derive(Clone, Copy, Debug, PartialEq, Eq)]
pub enum Verdict {
    Legal,
    Clashes { kept: Option<BookRow> },
}
