//! A service on the files of a folder: what it begins with, and its whole life.
#![tactic(auto)]

mod beginning;
mod fault;
mod life;
mod opening;
mod reading;
mod serving;

pub use fault::LifeFault;
pub use life::{Life, live};
pub use serving::{Terms, serve_files};
