//! The program's file system, and a load in the files of a directory.
#![tactic(auto)]

mod directory;
mod file_system;
mod held_file;
mod load;
mod log_file;
mod memory;
mod memory_log;
mod noted;

pub use directory::{FileFault, FileName, read_files};
pub use file_system::{FileSystem, SystemFiles, new_log};
pub use held_file::{HeldFile, HeldLog, Lockable};
pub use load::{load_of, read_load, write_load};
pub use log_file::LogFile;
pub use memory::MemoryFiles;
pub use memory_log::MemoryLog;

#[cfg(test)]
mod log_tests;
#[cfg(test)]
mod noting;
