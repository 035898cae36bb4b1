//! Tests of the engine and of storms, with locks and threads.
#![tactic(auto)]

#[cfg(test)]
mod engine_tests;
#[cfg(test)]
mod gates;
#[cfg(test)]
mod halls;
#[cfg(test)]
mod log_tests;
#[cfg(test)]
mod order_tests;
#[cfg(test)]
mod queue_tests;
#[cfg(test)]
mod refusal_tests;
#[cfg(test)]
mod reply_tests;
#[cfg(test)]
mod session_tests;
#[cfg(test)]
mod storm_tests;
#[cfg(test)]
mod stranger_tests;
