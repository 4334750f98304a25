use http::Method;

/// A header of a request (RFC 9110, section 5).
#[derive(Debug)]
pub struct Header {
    /// The name as it came. Names are compared without ASCII case.
    pub name: Vec<u8>,
    /// The value, without the spaces and tabs around it.
    pub value: Vec<u8>,
}

// Written out, so that callers do not prove again how each part is dropped.
impl Drop for Header {
    fn drop(self) {
        let Header { name: _, value: _ } = self;
    }
}

/// A request (RFC 9112, section 3).
#[derive(Debug)]
pub struct Request {
    /// The method: methods have case (RFC 9110, section 9.1).
    pub method: Method,
    /// The request target as it came, up to its first `?`.
    pub path: String,
    /// What stands behind the first `?` of the target, where there is one.
    pub query: Option<String>,
    /// The headers, in order.
    pub headers: Vec<Header>,
    /// The body: as many bytes as `Content-Length` says.
    pub body: Vec<u8>,
    /// Whether the connection ends after the reply: version 1.0, or `close` in a `Connection` header.
    pub last: bool,
}

// Written out, so that callers do not prove again how each part is dropped.
impl Drop for Request {
    fn drop(self) {
        let Request {
            method: _,
            path: _,
            query: _,
            headers: _,
            body: _,
            last: _,
        } = self;
    }
}
