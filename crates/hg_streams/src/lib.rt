//! What a call of the server is asked, what it reads from, what it writes to, and how it says that it ended.
//!
//!     source -> read_all -> bytes -> part -> script, text
//!     text -> write_all -> sink
//!
//! A source is read to its end (`read_all`), which may be at most so many bytes away, and a text is written to a sink (`write_all`). Both
//! tell the bytes that passed, and count their faults. What was read is what the source gave (`Gave`), and what a sink took is a prefix of the text: the whole text, unless the
//! sink failed. Standard input and output are a source over a reader and a sink over a writer
//! (`ReaderSource`, `WriterSink`). The bytes of an audit are split at a line `====` (`part`). The words that the program was called with
//! are read by `words_of`. `Status` says how a call ended.
//!
//! Nothing here knows what a script means, or how it is run.
#![tactic(auto)]

mod limits;
mod parts;
mod sink;
mod source;
mod standard;
mod status;
mod words;

pub use limits::{MOST_AUDIT_BYTES, limit_of_audits_is_this_number};
pub use parts::part;
pub use sink::write_all;
pub use source::{ReadError, read_all};
pub use standard::{ReaderSource, StdinSource, StdoutSink, WriterSink};
pub use status::Status;
pub use words::words_of;
