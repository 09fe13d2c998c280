//! What each event keeps, and what always holds. Each law is the contract of a function with no body.

ghost use Rattle.std.specs.Prelude.{ℕ, List};
ghost use Rattle.hg_base.specs.declared.rid.Rid.{Rid};
ghost use Rattle.hg_base.specs.declared.image.Image.{Image};
ghost use Rattle.hg_base.specs.declared.report.Kind.{Kind};
ghost use Rattle.hg_base.specs.declared.scope.Scope.{Scope};
ghost use Rattle.hg_base.specs.declared.value.Value.{Value};
ghost use Rattle.hg_core.specs.declared.ask.Ask.{Ask};
ghost use Rattle.hg_core.specs.State.{CoreState, opened};
ghost use Rattle.hg_core.specs.Events.{Declare, Probe, Enter, Fix, GoLive, End, Mark, Sample, SampleMask, Move, Miss, Install, Undo, Stamp, Publish, Reclaim, Take, Look, happens, May};
ghost use Rattle.hg_core.specs.Steps.{Always, Step, Arrive, Leave, Split, Unite, LeadsTo, step, Can};
ghost use Rattle.hg_core.specs.Invariant.{IsSteady};

/// A session at rest stores the mask word of the tables of its next transaction.
pub fn declare_keeps()
    ensures { (s : CoreState) (j : ℕ) (scope : Scope) → IsSteady s → May s (Declare j scope) →
        IsSteady (happens s (Declare j scope)) }
{}

/// A session loads the mark, of which nobody knows.
pub fn probe_keeps()
    ensures { (s : CoreState) (j : ℕ) → IsSteady s → May s (Probe j) →
        IsSteady (happens s (Probe j)) }
{}

/// It shows that it enters at the mark that it loaded.
pub fn enter_keeps()
    ensures { (s : CoreState) (j f : ℕ) → IsSteady s → May s (Enter j f) →
        IsSteady (happens s (Enter j f)) }
{}

/// It loads the mark again. This one is at or over the mark of every record that there is.
pub fn fix_keeps()
    ensures { (s : CoreState) (j f : ℕ) → IsSteady s → May s (Fix j f) →
        IsSteady (happens s (Fix j f)) }
{}

/// The second mark becomes its snapshot, with the tables that it declared.
pub fn go_live_keeps()
    ensures { (s : CoreState) (j m : ℕ) (scope : Scope) → IsSteady s → May s (GoLive j m scope) →
        IsSteady (happens s (GoLive j m scope)) }
{}

/// Its transaction is over.
pub fn end_keeps()
    ensures { (s : CoreState) (j : ℕ) → IsSteady s → May s (End j) → IsSteady (happens s (End j)) }
{}

/// A pass loads the mark, and begins a record with it.
pub fn mark_keeps()
    ensures { (s : CoreState) (p : ℕ) (known : ℕ → ℕ) → IsSteady s → May s (Mark p known) →
        IsSteady (happens s (Mark p known)) }
{}

/// A pass loads a register into its record.
pub fn sample_keeps()
    ensures { (s : CoreState) (p j : ℕ) → IsSteady s → May s (Sample p j) →
        IsSteady (happens s (Sample p j)) }
{}

/// It loads the mask word of a session whose register it found live and declared. Where the session has begun anew since, the
/// mask is that of a later transaction, which reads at the record's mark or over it.
pub fn sample_mask_keeps()
    ensures { (s : CoreState) (p j : ℕ) → IsSteady s → May s (SampleMask p j) →
        IsSteady (happens s (SampleMask p j)) }
{}

/// A pass moves a long snapshot to the tables that it declared, in the register and in its own record.
pub fn move_keeps()
    ensures { (s : CoreState) (p j : ℕ) → IsSteady s → May s (Move p j) →
        IsSteady (happens s (Move p j)) }
{}

/// A session stores a write, which is open until it is undone or published.
pub fn install_keeps()
    ensures { (s : CoreState) (j : ℕ) (r : Rid) (image : Image) → IsSteady s →
        May s (Install j r image) → IsSteady (happens s (Install j r image)) }
{}

/// It takes an open write back.
pub fn undo_keeps()
    ensures { (s : CoreState) (j : ℕ) (r : Rid) → IsSteady s → May s (Undo j r) →
        IsSteady (happens s (Undo j r)) }
{}

/// A committer gives an open write the number that the mark will have next.
pub fn stamp_keeps()
    ensures { (s : CoreState) (j : ℕ) (r : Rid) → IsSteady s → May s (Stamp j r) →
        IsSteady (happens s (Stamp j r)) }
{}

/// The open transactions of some sessions join the history as one group, and the mark grows by one.
pub fn publish_keeps()
    ensures { (s : CoreState) (sessions : List ℕ) → IsSteady s → May s (Publish sessions) →
        IsSteady (happens s (Publish sessions)) }
{}

/// A pass with a whole record takes away versions of a record, by its kind. No session reads them, or may come to.
pub fn reclaim_keeps()
    ensures { (s : CoreState) (p : ℕ) (kind : Kind) (r : Rid) → IsSteady s →
        May s (Reclaim p kind r) → IsSteady (happens s (Reclaim p kind r)) }
{}

/// A pass tries to move a snapshot that is no more there.
pub fn miss_keeps()
    ensures { (s : CoreState) (p j number : ℕ) → IsSteady s → May s (Miss p j number) →
        IsSteady (happens s (Miss p j number)) }
{}

/// A session reads a range in a bucket, tries a write, or names a table outside. What it finds goes into its log.
pub fn look_keeps()
    ensures { (s : CoreState) (j : ℕ) (ask : Ask) (b : ℕ) (rows : List (ℕ × List Value)) →
        IsSteady s → May s (Look j ask b rows) → IsSteady (happens s (Look j ask b rows)) }
{}

/// A pass takes the oldest group out of the committer's list.
pub fn take_keeps()
    ensures { (s : CoreState) (p : ℕ) → IsSteady s → May s (Take p) →
        IsSteady (happens s (Take p)) }
{}

/// A pass takes a bucket, and its visit begins.
pub fn arrive_keeps()
    ensures { (s : CoreState) (p b : ℕ) → IsSteady s → Can s (Arrive p b) →
        IsSteady (step s (Arrive p b)) }
{}

/// It gives the bucket back. What was cut or clean then stays so.
pub fn leave_keeps()
    ensures { (s : CoreState) (p : ℕ) → IsSteady s → Can s (Leave p) → IsSteady (step s (Leave p)) }
{}

/// A pass is split in two. Both have the record.
pub fn split_keeps()
    ensures { (s : CoreState) (p : ℕ) → IsSteady s → Can s (Split p) → IsSteady (step s (Split p)) }
{}

/// Two passes become one, which has the visits of both.
pub fn unite_keeps()
    ensures { (s : CoreState) (p q m : ℕ) → IsSteady s → Can s (Unite p q m) →
        IsSteady (step s (Unite p q m)) }
{}

/// The invariant holds after every list of steps from the state in which a board opens.
pub fn always_steady()
    ensures { Always IsSteady }
{}

/// A step more reaches the next state, and the invariant holds of each state that is reached.
pub fn each_is_reached()
    ensures next { (start s : CoreState) (e : Step) → LeadsTo start s → Can s e →
        LeadsTo start (step s e) }
    ensures steady { (sessions tables buckets passes quota : ℕ) (s : CoreState) →
        LeadsTo (opened sessions tables buckets passes quota) s → IsSteady s }
{}
