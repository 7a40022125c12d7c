//! Serving an office, or another service, over TCP.
//!
//! `limits` has the times that a connection may take. `pace` is a connection's reader and writer, which fail once those
//! are over; `connections` is the door through which a worker takes one connection after the other, until the flag of
//! `stop` is set, and `serving` has the hall serve such doors.
#![tactic(auto)]

pub mod connections;
pub mod limits;
pub mod pace;
pub mod serving;
pub mod stop;
