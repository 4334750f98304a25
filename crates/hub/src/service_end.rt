/// Why the service of a connection ended.
#[derive(Clone, Copy, Debug, PartialEq, Eq)]
pub enum ServiceEnd {
    /// The last reply was written.
    LastReply = 1,
    /// There was nothing more to read.
    EndOfInput = 2,
    /// A read failed.
    ReadFailed = 3,
    /// A write failed, or took no byte.
    WriteFailed = 4,
    /// The connection was read 1,048,576 times.
    TooManyReads = 5,
    /// Memory ran out. The fixed reply with status 503 was written.
    Memory = 6,
    /// No number was left for the connection. Nothing was read or written.
    Full = 7,
}
