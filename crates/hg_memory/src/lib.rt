//! Sources and sinks that lie in memory, for tests and for callers who have the bytes already.
//!
//!     MemorySource, MemorySink     the calls that are listed fail
//!     SteadySource, SteadySink     no call fails
//!
//! Each gives or takes at most so many bytes a call. A sink makes its room before it is lent.
#![tactic(auto)]

mod memory;
mod steady;

pub use memory::{MemorySink, MemorySource};
pub use steady::{SteadySink, SteadySource};
