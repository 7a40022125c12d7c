//! The exact text of every answer, and writing it.
//!
//! An answer is a reply of the office with its request's action and day, or a fault of the bytes that came. Its text is
//! one head of HTTP/1.1 (RFC 9112) and one body; `write_reply` writes that text, whole or a prefix of it.
#![tactic(auto)]

pub mod answer;
mod buffer;
pub mod examples;
mod in_place;
mod member;
mod rows;
mod status;
mod write;

pub use write::{Made, Outgoing, WriteFault, body, write_reply};
