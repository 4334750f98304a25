use thiserror::Error;

/// Why a server of many connections ended early.
#[derive(Clone, Copy, Debug, PartialEq, Eq, Error)]
pub enum EngineFault {
    /// Nothing can be waited for, or no connection accepted.
    #[error("socket")]
    Socket = 1,
    /// It waited 2^64 - 1 times.
    #[error("waits")]
    Waits = 2,
}
