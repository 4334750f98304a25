ghost use Rattle.std.specs.Prelude.{◌≡◌};
ghost use Rattle.api.specs.Asking.{method_named};

/// The methods that some page has (RFC 9110, section 9.3).
#[derive(Clone, Copy, Debug, PartialEq, Eq)]
pub enum RequestMethod {
    /// Read.
    Get,
    /// Write.
    Put,
    /// Process what is sent.
    Post,
    /// Remove.
    Delete,
}

/// Finds the method that a request names, where some page has it. Methods have case (RFC 9110,
/// section 9.1).
pub fn method_of(method: &str) -> Option<RequestMethod>
    ensures { result ≡ method_named method.now }
{
    if method == "GET" {
        return Some(RequestMethod::Get);
    }
    if method == "PUT" {
        return Some(RequestMethod::Put);
    }
    if method == "POST" {
        return Some(RequestMethod::Post);
    }
    if method == "DELETE" {
        return Some(RequestMethod::Delete);
    }
    None
}
