//! The bytes of a connection to one judged HTTP message (RFC 9110, RFC 9112).
//!
//! `Inbox::read_message` reads until a whole message is at the front of the inbox and answers where its parts
//! are, or the first fault of its head. Nothing is copied and no memory is taken: `Inbox::message` lends the parts,
//! and `Inbox::let_go` drops their bytes, counts the request and says by the inbox whether the connection closes.
//!
//! For the layer above: over a reader whose bytes are known, `read_message` gives `Gives`, so at a message
//! `IsMessage stream (message_at inbox.bytes spans) rest` with the rest still to be read; `message` lends
//! `message_at inbox.bytes spans`; and after `let_go` the stream is that rest.
#![tactic(auto)]

pub mod error;
pub mod fault;
mod head;
pub mod inbox;
pub mod laws;
pub mod message;
pub mod source;
