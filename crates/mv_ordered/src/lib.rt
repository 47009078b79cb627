//! The laws of lock order, for any program of calls: callers that all obtain latches in rising order never deadlock at them.
#![tactic(auto)]

mod laws;

pub use laws::{latches_in_rising_order_do_not_deadlock, unfinished_callers_do_not_all_wait};
