//! HTTP in front of the office: from the bytes of a connection to the bytes of its answers (RFC 9110, RFC 9112).
//!
//! `read_request` reads the next request of a connection from an inbox and a reader, `serve_by` also has a service serve
//! it and writes the answer, and `serve_one` does so for an office, with or without a history. What a stream's prefix
//! asks is `AskedOf` (specs/Reading.antt): a request and the rest, a fault, or the end. What serving does is `Serves`
//! (specs/Serving.antt): one step of the machine for the request that the stream asks, with what it enters into the log,
//! and its reply's text goes out.
#![tactic(auto)]

pub mod laws;
pub mod read;
pub mod serve;
pub mod service;

pub use permit_answer::answer::Answer;
pub use permit_answer::{WriteFault, write_reply};
pub use permit_http::error::{self, WireError};
pub use permit_http::fault::Fault;
pub use permit_http::inbox::Inbox;
pub use permit_routes::routing::Routes;
pub use read::{read_by, read_request};
pub use serve::{Served, Turn, answer_with, serve_by, serve_one};
pub use service::{Dated, Service};
