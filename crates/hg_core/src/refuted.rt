//! Steps that would be wrong. Each is refuted by a state that meets the invariant.

ghost use Rattle.std.specs.Prelude.{◌≡◌, ℕ, List, None};
ghost use Rattle.hg_base.specs.declared.rid.Rid.{Rid};
ghost use Rattle.hg_base.specs.declared.image.Image.{Image};
ghost use Rattle.hg_base.specs.declared.scope.Scope.{Scope};
ghost use Rattle.hg_core.specs.Passes.{IsWhole, horizon, recorded};
ghost use Rattle.hg_core.specs.Contents.{versions};
ghost use Rattle.hg_core.specs.Clean.{IsClean};
ghost use Rattle.hg_core.specs.State.{CoreState};
ghost use Rattle.hg_core.specs.Events.{GoLive, Sample, Install, Publish, Reclaim, MaySample, MayReclaim, May, happens};
ghost use Rattle.hg_core.specs.Steps.{Step, Run, run};
ghost use Rattle.hg_core.specs.Invariant.{IsSteady};
ghost use Rattle.hg_core.specs.Missed.{MissesNone};
ghost use Rattle.hg_core.specs.Wrong.{live_by_one_load, mark_loaded_last, mark_alone, sampled_without_entering, lifetime_past, swept_late, cut_past_moved, newest_deletion_removed, mask_stored_late, sampled_with, MayGoLiveWith, MayReclaimUnmasked, MayPublishEarly, MayInstallOver};

use crate::phase::Phase;
use hg_base::Kind;

/// A session must not go live at the mark that it loaded before it entered: a pass may have loaded a later mark meanwhile,
/// and found its register idle.
pub fn one_load_is_refuted()
    ensures { ((s : CoreState) (j f : ℕ) (scope : Scope) → IsSteady s →
        s.phase j ≡ Phase.Entered scope f → IsSteady (live_by_one_load s j f scope)) → ⊥ }
{}

/// A pass must not load the registers before the mark: a session may have gone live below that mark meanwhile.
pub fn mark_loaded_last_is_refuted()
    ensures { ((s : CoreState) (p : ℕ) → IsSteady s → IsSteady (mark_loaded_last s p)) → ⊥ }
{}

/// A session must not go live with other tables than those that it declared: its mask word would not be theirs.
pub fn undeclared_scope_is_refuted()
    ensures { ((s : CoreState) (j m : ℕ) (scope : Scope) → IsSteady s → MayGoLiveWith s j m scope →
        IsSteady (happens s (GoLive j m scope))) → ⊥ }
{}

/// Nor must its register go live before the mask word is stored: a pass may load both words between the two stores.
pub fn mask_stored_late_is_refuted()
    ensures { ((s : CoreState) (p j m : ℕ) (scope : Scope) → IsSteady s → MaySample s p j →
        MayGoLiveWith s j m scope → IsSteady (mask_stored_late s p j m scope)) → ⊥ }
{}

/// A pass must not load a mask word before the register: the session may have begun anew meanwhile, with other tables and
/// below the mark of the record.
pub fn mask_loaded_first_is_refuted()
    ensures { ((s : CoreState) (p j : ℕ) (steps : List Step) → IsSteady s → Run s steps →
        MaySample (run s steps) p j → IsSteady (sampled_with (run s steps) p j (s.mask j)))
        → ⊥ }
{}

/// A record with no mask of a live declared session must not be used: once the snapshot is moved, it would count for no
/// table.
pub fn bound_without_mask_is_refuted()
    ensures table { ((s : CoreState) (p : ℕ) (r : Rid) → IsSteady s → MayReclaimUnmasked s p r →
        IsSteady (happens s (Reclaim p Kind.Table r))) → ⊥ }
    ensures interval { ((s : CoreState) (p : ℕ) (r : Rid) → IsSteady s → MayReclaimUnmasked s p r →
        IsSteady (happens s (Reclaim p Kind.Interval r))) → ⊥ }
{}

/// The horizon must not leave out the entering numbers: a session that enters may go live below the mark.
pub fn horizon_without_entering_is_refuted()
    ensures sample { ((s : CoreState) (p j : ℕ) → IsSteady s → May s (Sample p j) →
        IsSteady (sampled_without_entering s p j)) → ⊥ }
    ensures horizon { ((s : CoreState) (p : ℕ) → IsSteady s → IsWhole s.sessions (s.pass p) →
        MissesNone (mark_alone (s.pass p)) (s.pass p) s.phase) → ⊥ }
{}

/// A version is read at its own number, so a sweep must not count its lifetime from the number after it.
pub fn lifetime_without_own_number_is_refuted()
    ensures { ((s : CoreState) (p : ℕ) (r : Rid) → IsSteady s → MayReclaim s p r →
        IsSteady (lifetime_past s p r)) → ⊥ }
{}

/// A lifetime ends before its successor's number, so a sweep must not count a snapshot there: it would leave a version that
/// nobody reads.
pub fn lifetime_with_successor_is_refuted()
    ensures { ((s : CoreState) (p : ℕ) (r : Rid) → IsSteady s → MayReclaim s p r →
        IsClean (horizon (s.pass p)) (recorded r.table (s.pass p)) (swept_late
        (horizon (s.pass p)) (recorded r.table (s.pass p)) None
        (versions s.buckets s.bucket r))) → ⊥ }
{}

/// A bound must count a moved snapshot: a table's those that declared the table, and the group collector's all.
pub fn bound_without_moved_is_refuted()
    ensures table { ((s : CoreState) (p : ℕ) (r : Rid) → IsSteady s → MayReclaim s p r →
        IsSteady (cut_past_moved s p Kind.Table r)) → ⊥ }
    ensures group { ((s : CoreState) (p : ℕ) (r : Rid) → IsSteady s → MayReclaim s p r →
        IsSteady (cut_past_moved s p Kind.Group r)) → ⊥ }
{}

/// A sweep must leave the newest version, even where it is a deletion: an older row would be found again.
pub fn newest_deletion_removed_is_refuted()
    ensures { ((s : CoreState) (p : ℕ) (r : Rid) → IsSteady s → MayReclaim s p r →
        IsSteady (newest_deletion_removed s p r)) → ⊥ }
{}

/// All writes of a group must be stamped before the mark grows.
pub fn publish_before_stamp_is_refuted()
    ensures { ((s : CoreState) (sessions : List ℕ) → IsSteady s → MayPublishEarly s.log sessions →
        IsSteady (happens s (Publish sessions))) → ⊥ }
{}

/// A write must be refused where another session has the record open.
pub fn second_writer_is_refuted()
    ensures { ((s : CoreState) (j : ℕ) (r : Rid) (image : Image) (at : ℕ) (scope : Scope) →
        IsSteady s → MayInstallOver s j r at scope →
        IsSteady (happens s (Install j r image))) → ⊥ }
{}
