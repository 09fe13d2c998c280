//! What the lines of a printed run say together.
//!
//! A text is checked without the engine, so what it says is gathered from its lines. Contracts see each structure here as a function of
//! the lines, in the words of `hg_base`:
//!
//!     Sequence   the records that lines answer, in their order          in_order
//!     Lines      each line with the transaction it belongs to           said_from
//!     Rest       what the cursor of a line's transaction has left       rest_in
//!     Own        (transaction, record) -> its last stored image         image_in r (stored_in j x lines)
//!     Writes     (record, commit number) -> image                       group_image r (group_at h n)
//!     Numbers    transaction -> its least commit number                 numbers_in j x lines
//!     Before     numbers, marks and open transactions before a line     known, greatest_commit, mark_of, open_of
//!     Points     the snapshots that were printed                        prints
//!     Context    `Own`, `Numbers` and `Points` of all lines
//!
//! Each is an ordered map or set, so a look-up takes logarithmic time in the number of lines. `visible` is the last entry of `Writes`
//! at or before (record, snapshot). No line belongs to a transaction that ended before it, so where only open transactions matter,
//! `Own` forgets a transaction when it ends (`close`). `read_history` also gathers what some line asks of all lines (`Context`), and
//! nothing that none asks for.
//!
//! Neither the records nor the lines with their transactions are kept: a `Reader` makes each `Said` when its line is read, from the
//! script, the reply, and what the session's previous line left.
//!
//! Two facts are decided on the way: whether the printed commit numbers give a history (`read_history`, which counts the versions too),
//! and whether the commit of a line overwrites a version that it did not see (`keeps_update`).
#![tactic(auto)]

mod before;
mod context;
mod gathered;
mod history;
mod lines;
mod own;
mod said;
mod sequence;
mod tally;
mod writes;

pub use before::{Before, newer_of, snapshot_of};
pub use context::{Context, Numbers, Points};
pub use history::{Past, keeps_update, read_history};
pub use lines::{Lines, Reader};
pub use own::{LEAST, Own, Tx};
pub use said::{Rest, Said};
pub use sequence::Sequence;
pub use tally::Tally;
pub use writes::Writes;
