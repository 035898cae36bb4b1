//! Trees of pages: definitions, and the laws of what moves their items and changes no entry.
#![tactic(auto)]
