// The two streams of a connection with one exchange, and its stores.
pub(crate) const CLIENT: &str = "GET / HTTP/1.1\r\nHost: a\r\n\r\n";

pub(crate) const SERVER: &str = "HTTP/1.1 200 OK\r\nContent-Length: 2\r\n\r\nhi";

// The store of the two, of any port.
pub(crate) const STORE: &str =
    "MMSTORE 2\nrecord http 0 27 40\nGET / HTTP/1.1\r\nHost: a\r\n\r\nHTTP/1.1 200 OK\r\nContent-Length: 2\r\n\r\nhi\n";

// The same in form 1.
pub(crate) const OLD: &str =
    "MMSTORE 1\nrecord 27 40\nGET / HTTP/1.1\r\nHost: a\r\n\r\nHTTP/1.1 200 OK\r\nContent-Length: 2\r\n\r\nhi\n";
