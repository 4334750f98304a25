/// What bounds a server of many connections.
#[derive(Clone, Copy, Debug)]
pub struct Limits {
    /// So many connections are open at once.
    pub at_once: usize,
    /// So many seconds a connection may be silent.
    pub idle: u64,
    /// So many seconds a request may take until it is whole.
    pub request: u64,
    /// So many connections are accepted.
    pub conns: u64,
}
