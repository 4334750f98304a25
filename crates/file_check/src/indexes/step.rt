//! A step of a walk over the rows of a table.

ghost use Rattle.std.specs.Prelude.{◌≡◌};
ghost use Rattle.file_check.specs.inner.Walks.{step_number};

use crate::finding::Finding;

/// A step of a walk over the rows of a table, by their numbers.
#[derive(Clone, Copy, Debug, PartialEq, Eq)]
pub(crate) enum Step {
    /// The next row is sound, and has this number.
    Next(i64),
    /// It is not.
    Found(Finding),
    /// There is no further row.
    Done,
}

/// Returns the number of the row of a step, if it is sound.
pub(crate) fn next_number(step: &Step) -> Option<i64>
    ensures { result ≡ step_number step.now }
{
    match step {
        Step::Next(number) => Some(*number),
        _ => None,
    }
}
