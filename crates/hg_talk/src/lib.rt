//! A conversation: what a client asks, record by record, and what it is answered.
//!
//!     client      bytes        framer        record       judge (of hg_script)          answer
//!     1,put,t,5,20\n      ->   1 put t 5 20          ->   a statement of session 1  ->   1,2,at,0,stored,committed,1
//!     1,put,t\n           ->   1 put t               ->   breaks a rule: Fields     ->   bad,3,Fields
//!
//! A `Client` has the calls of a source and of a sink, and one log of what passed. So a contract can say what was written before something
//! was read. A `Framer` takes bytes one at a time and says when a record has ended. A record of more than 1,048,576 bytes is skipped, and
//! heard as such when it ends. A `Host` answers what is heard, and `Minutes` keep that and its answers, for clauses alone.
//!
//! The one rule of the crate is that nothing is withheld (`IsNotWithheld`): before each read, what was written is the answers to the records
//! that are complete in what was read, to all of them, and nothing else. `converse` keeps it with any client and any host. What is sent is
//! what a script has (`what_is_sent_is_what_a_script_has`), but for records that are too long.
//!
//! Nothing here knows what a record means, or the engine. What is answered to it is said by `Conversed` of `hg_exact`.
#![tactic(auto)]

mod client;
mod conversation;
mod framer;
mod heard;
mod host;
mod laws;
mod limits;
mod minutes;
mod states;
mod talker;
mod told;
mod trouble;
mod writing;

pub use client::Client;
pub use conversation::converse;
pub use framer::Framer;
pub use heard::Heard;
pub use host::Host;
pub use laws::what_is_sent_is_what_a_script_has;
pub use limits::MOST_RECORD_BYTES;
pub use minutes::{Minutes, Said};
pub use talker::StandardClient;
pub use trouble::{Stop, Trouble};
pub use writing::write_all;
