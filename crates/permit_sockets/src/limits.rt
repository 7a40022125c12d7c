//! How long a connection may hold a worker, and what else is counted in seconds.

/// So many seconds a connection may say nothing before a request.
pub const IDLE_TIMEOUT: u64 = 2;

/// So many seconds a request may take, from its first byte to its last.
pub const REQUEST: u64 = 10;

/// So many seconds the other end may take to accept an answer.
pub const ANSWER: u64 = 10;

/// So many seconds what the other end still sends is read away after an answer that closes. To close a socket with
/// bytes that were not read would reset the connection, and could take the answer from the other end.
pub const LINGER: u64 = 1;

/// So many milliseconds a worker waits before it tries again, where no connection could be taken.
pub const PAUSE: u64 = 100;
