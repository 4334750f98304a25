/// A word of a command, as a name of it says.
#[derive(Clone, Copy)]
pub(crate) enum Word<'a> {
    /// `--NAME VALUE`, which has to be given.
    Required(&'a str),
    /// `--NAME VALUE`, which may be given.
    Optional(&'a str),
    /// `--NAME`, which may be given, and has no value.
    Flag(&'a str),
    /// `[ADMIN]...`.
    Admins,
}
