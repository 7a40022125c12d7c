//! Many changes of a store's tables, made together.
//!
//! A store that keeps its tables on a disk syncs the disk at each commit. Where thousands of changes are known beforehand, they are
//! written down first, over tables in memory (`draft::Draft`), and then made by one commit (`batching::Batching`): all of them or
//! none.
#![tactic(auto)]

pub mod batching;
pub mod draft;
