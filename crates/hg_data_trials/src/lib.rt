//! Tests of the single-threaded crates, of what no row of tests/ can show: values that the program never prints.
//!
//!     calls      calls on one record's versions, as words
//!     writes     writes by a chain by itself, and at a place among others
//!     both       the calls on a chain by itself, and the same at a place among others
//!     journals   a journal over a file that stops, and its end repaired
//!     nodes      nodes that are free, and given again
//!     rows       rows of calls, and what they answer
//!     seeds      records of the script of a seed
//!     streams    sources and sinks in memory
//!     words      the options that they are
//!
//! No crate uses this one. The tests of many crates are in one crate, since a crate with tests is proved twice.
#![tactic(auto)]

#[cfg(test)]
mod both;
#[cfg(test)]
mod calls;
#[cfg(test)]
mod journals;
#[cfg(test)]
mod nodes;
#[cfg(test)]
mod rows;
#[cfg(test)]
mod seeds;
#[cfg(test)]
mod streams;
#[cfg(test)]
mod words;
#[cfg(test)]
mod writes;
