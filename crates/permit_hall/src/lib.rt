//! The hall: several sessions ask one office, or another service, at once.
//!
//! A session is one worker's stream of requests: a list (`lists::run_lists`), or what the connections of a door ask
//! (`doors::run_hall`). Each worker puts its requests into one bounded intake, one at a time, and collects their answers
//! from a lane of its own. The calling thread owns the office, takes the requests one after the other and serves them.
//! So there is one history for all threads (`specs/OneHistory.antt`). `events::hall_run` is the same without threads,
//! over a list of puts, takes and collects; what it does is the model's hall run.
//!
//! The owner serves by any `Service` of permit_wire, and `doors::run_doors` takes any: there is one run of it for all
//! threads (`specs/OneRun.antt`), which for an office is the history. An office is a service, and a session is another:
//! it serves a connection by what it is answered. The intake and the lanes are channels under rules (`specs/Intake.antt`,
//! `specs/Lane.antt`), which carry messages of any type.
//!
//! Who holds an end of such a channel has a pass: a value that goes with each of its calls, and carries nothing when the
//! program runs. What the holder knows of the channel is the pass's note. A pass has its seat at a channel where it is one
//! of that channel's passes, and only then may it go with a call on it.
#![tactic(auto)]

pub mod doors;
pub mod error;
pub mod events;
mod hall;
mod intake;
mod lane;
pub mod lists;
mod owner;
mod queues;
mod session;
mod tasks;
mod worker;
