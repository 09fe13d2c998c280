//! What a seat at the board has, knows and did. No code makes a value of these types: contracts speak of them.

ghost use Rattle.std.specs.Prelude.{List};
ghost use Rattle.hg_rule.specs.declared.view.Event.{Event};
ghost use Rattle.hg_rule.specs.declared.view.Part.{Part};
ghost use Rattle.hg_rule.specs.declared.view.Sight.{Sight};
ghost use Rattle.hg_rule.specs.ViewCodes.{parts_code, sights_code, events_code};
ghost use base.Fml.{ftrue};

use crate::groups::Groups;
use hg_base::{Image, Kind, Rid, Scope};
use hg_core::{Ask, Counters, Loaded, LogEntry, PassEntry, Phase, Register, Version, Visit};
use std::marker::Model;

/// A session's part of the state: its phase, its log, newest entry first, and whether a write of its open transaction has the
/// next number.
pub struct SessionPart {
    pub phase: Phase,
    pub log: [LogEntry; 0],
    pub stamped: bool,
}

/// A bucket's part of the state: its records with their versions, and its counters.
pub struct BucketPart {
    pub content: [(Rid, [Version; 0]); 0],
    pub counters: Counters,
}

/// The committer's part of the state: the history, the writes that have the next number, each with its session, and how many
/// groups were taken out of its list.
pub struct CommitPart {
    pub history: Groups,
    pub stamped: [(u64, Rid); 0],
    pub taken: u64,
}

/// A collector pass's part of the state: its record with the number of its round and what it had seen when the record began, what it
/// loaded of sessions since, the last one first, its visits, newest first, and its journal, oldest entry first. No pass's share is 0,
/// and the sum of all shares never changes.
pub struct PassPart {
    pub mark: u64,
    pub round: u64,
    pub seen: [Sight; 0],
    pub loaded: [(u64, Loaded); 0],
    pub visits: [Visit; 0],
    pub journal: [PassEntry; 0],
    pub share: u64,
}

/// A part of the state, with the number of its owner. Exactly one view has each.
pub enum Part {
    OfSession(u64, SessionPart),
    OfBucket(u64, BucketPart),
    OfCommit(CommitPart),
    OfPass(u64, PassPart),
    /// A session's part was handed over as it is here, when the mark was this number.
    Away(u64, SessionPart, u64),
    /// A session's part that was handed over.
    Lent(u64, SessionPart),
}

/// What a seat has seen. It stays true.
pub enum Sight {
    /// The history begins with these groups.
    Saw(Groups),
    /// The log of a session ends with these entries, its oldest.
    Heard(u64, [LogEntry; 0]),
    /// At least this many groups were taken.
    Took(u64),
    /// A step of a pass that was joined to this one.
    Did(Event),
}

/// A step, with what its call answered.
pub enum Event {
    Declare {
        session: u64,
        scope: Scope,
    },
    Probe {
        session: u64,
        mark: u64,
    },
    Enter {
        session: u64,
        number: u64,
    },
    Fix {
        session: u64,
        mark: u64,
    },
    GoLive {
        session: u64,
        number: u64,
        scope: Scope,
    },
    End {
        session: u64,
    },
    Look {
        session: u64,
        ask: Ask,
        mark: u64,
    },
    Install {
        session: u64,
        rid: Rid,
        image: Image,
    },
    Undo {
        session: u64,
        rid: Rid,
    },
    Stamp {
        session: u64,
        rid: Rid,
        number: u64,
    },
    /// A group of transactions that were handed over.
    Publish {
        number: u64,
    },
    Mark {
        pass: u64,
        mark: u64,
    },
    Sample {
        pass: u64,
        session: u64,
        register: Register,
    },
    SampleMask {
        pass: u64,
        session: u64,
        mask: u64,
    },
    /// A try to move a snapshot: it was moved if the register still was live at this number.
    Move {
        pass: u64,
        session: u64,
        number: u64,
        moved: bool,
    },
    Reclaim {
        pass: u64,
        kind: Kind,
        rid: Rid,
        removed: u64,
    },
    Take {
        pass: u64,
        mark: u64,
    },
    HandOver {
        session: u64,
        mark: u64,
    },
    HandBack {
        session: u64,
    },
}

/// The parts that a seat has, its own first and then what was joined last; what it has seen; and the steps that it made. They are plain
/// data, and no fields of Rust types, so the proof of a function that borrows a seat does not go through them.
pub struct View {
    pub ghost parts: { List Part } by { parts_code },
    pub ghost sights: { List Sight } by { sights_code },
    pub ghost events: { List Event } by { events_code },
}

impl Model for View {
    ghost also_owns = { λ _. ftrue };
}

/// How many of each a board is made for, and how often each session may begin, and write.
#[derive(Clone, Copy)]
pub struct Sizes {
    pub sessions: u32,
    pub tables: u32,
    pub buckets: u32,
    pub quota: u64,
}
