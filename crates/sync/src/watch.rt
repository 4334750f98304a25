use repl::{Ask, Progress, Replication};

/// Who is told how far a pass is.
pub trait Watch {
    /// Takes in how far the pass is: it has just written its checkpoints.
    fn tell(&mut self, progress: Progress);

    /// Takes in that the pass goes on no more.
    fn end(&mut self);

    /// Takes in what the pass says at its end.
    fn tell_end(&mut self, end: &Ask);

    /// Takes in that a document alone is too long for the target: a pass that stopped for it, which lists one
    /// change at a time.
    fn tell_too_long(&mut self, pass: &Replication);
}

/// Nobody.
#[derive(Drop)]
pub struct Unwatched;

impl Watch for Unwatched {
    fn tell(&mut self, _progress: Progress) {}

    fn end(&mut self) {}

    fn tell_end(&mut self, _end: &Ask) {}

    fn tell_too_long(&mut self, _pass: &Replication) {}
}
