//! A file that keeps whole groups of records, whenever a crash comes.
//!
//!     version,2/table,t,n/1,begin/1,put,t,5,20/1,commit/ /      what is kept, then the gate, closed; `/` is a line feed
//!                                                        |
//!                                                        gate: the first line feed that begins a record
//!
//! A reader of scripts skips empty lines, so such a file is itself a script. A group is added in two steps, each of which ends with a sync:
//!
//!     ..1,commit/ / ,begin/1,put,t,6,30/1,commit/ /             behind the closed gate, all of the group but its first byte, and a gate
//!     ..1,commit/ 1,begin/1,put,t,6,30/1,commit/ /              and then the first byte, which opens the old gate
//!
//! One byte is written whole or not at all, so the group is there whole or not at all. What a crash leaves behind the gate is cut off when
//! the file is opened again (`Journal::open`).
//!
//! What a file does is a trait with a clock (`Device`): `left_since` is what a crash at any moment since might have left. `Recorded` is one
//! over any file (`RawFile`). It keeps a record of the file's calls that only proofs see, so it is trusted that a call which was answered
//! `Ok` was done. `SystemFile` is a file of the operating system, and `MemoryFile` one for tests.
#![tactic(auto)]

mod calls;
mod device;
mod gate;
mod journal;
mod laws;
mod memory;
mod recorded;
mod synced;
mod system;

pub use device::Device;
pub use gate::{Place, find_gate};
pub use journal::{AppendError, Journal, OpenError};
pub use laws::whole_texts_join;
pub use memory::MemoryFile;
pub use recorded::{RawFile, Recorded};
pub use system::{FileError, SystemFile, open_file};
