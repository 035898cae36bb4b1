//! A service: lines as they come, answers once what they tell of is durable.
#![tactic(auto)]

mod keeping;
mod laws;
mod lines;
mod opening;
mod service;
mod serving;

pub use keeping::ServiceLog;
pub use laws::answers_stay;
pub use lines::RoundEnd;
pub use opening::open_database;
pub use service::{Ended, Service, ServiceFault};
pub use serving::serve_input;

/// How many bytes a page of a service's database has.
pub const PAGE_BYTES: usize = 4096;
