/// What a line has a pass do.
#[derive(Clone, Copy, Debug, PartialEq, Eq)]
pub enum Turn {
    /// `step`: make one exchange.
    Step,
    /// `lose`: make one exchange, whose reply is lost.
    Lose,
    /// `unsent`: make one exchange, whose request is lost.
    Unsent,
    /// `run`: make exchanges to the end.
    Run,
}
