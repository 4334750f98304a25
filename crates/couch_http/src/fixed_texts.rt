//! The replies that need no memory, whole.

/// Of a cutter's `Syntax`.
pub const SYNTAX: &str =
    "HTTP/1.1 400 Bad Request\r\nContent-Type: application/json\r\nContent-Length: 41\r\nConnection: close\r\n\r\n\
     {\"error\":\"bad_request\",\"reason\":\"syntax\"}";

/// Of a cutter's `Encoding`.
pub const ENCODING: &str =
    "HTTP/1.1 501 Not Implemented\r\nContent-Type: application/json\r\nContent-Length: 56\r\nConnection: close\r\n\r\n\
     {\"error\":\"not_implemented\",\"reason\":\"transfer encoding\"}";

/// Of a cutter's `TooLarge`.
pub const TOO_LARGE: &str =
    "HTTP/1.1 413 Payload Too Large\r\nContent-Type: application/json\r\nContent-Length: 40\r\nConnection: close\r\n\r\n\
     {\"error\":\"too_large\",\"reason\":\"request\"}";

/// Where the store failed.
pub const STORE: &str =
    "HTTP/1.1 500 Internal Server Error\r\nContent-Type: application/json\r\nContent-Length: 50\r\n\r\n\
     {\"error\":\"internal_server_error\",\"reason\":\"store\"}";

/// The same for a last request.
pub const STORE_LAST: &str =
    "HTTP/1.1 500 Internal Server Error\r\nContent-Type: application/json\r\nContent-Length: 50\r\nConnection: close\r\n\r\n\
     {\"error\":\"internal_server_error\",\"reason\":\"store\"}";

/// Where memory ran out.
pub const NO_ROOM: &str =
    "HTTP/1.1 503 Service Unavailable\r\nContent-Type: application/json\r\nContent-Length: 49\r\n\r\n{\"error\":\"service_unavailable\",\"reason\":\"memory\"}";

/// The same for a last request.
pub const NO_ROOM_LAST: &str =
    "HTTP/1.1 503 Service Unavailable\r\nContent-Type: application/json\r\nContent-Length: 49\r\nConnection: close\r\n\r\n\
     {\"error\":\"service_unavailable\",\"reason\":\"memory\"}";
