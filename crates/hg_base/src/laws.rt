//! Laws of the definitions, each the contract of a function with no body.

ghost use Rattle.std.specs.Prelude.{◌≡◌, ◌↔◌, ℕ, suc, ◌<◌, ◌≤◌, List, [], ◌∷◌, ◌++◌, decimal, length, Some, None, IsSome, Contains};
ghost use Rattle.hg_base.specs.declared.rid.Rid.{Rid};
ghost use Rattle.hg_base.specs.declared.image.Image.{Image};
ghost use Rattle.hg_base.specs.Lists.{Each, onto};
ghost use Rattle.hg_base.specs.History.{Commit, Group, History, IsGroup, NoLostUpdate, LosesNothing, group_at, image_in, writes, visible, nothing};
ghost use Rattle.hg_base.specs.Transcript.{Said, committed, commit_by, history_of};
ghost use Rattle.hg_base.specs.Sound.{IsRight, AreRight};
ghost use Rattle.hg_base.specs.declared.line.Printed.{Printed};
ghost use Rattle.hg_base.specs.Script.{Mode, Script};
ghost use Rattle.hg_base.specs.Text.{IsFit, text_records};
ghost use Rattle.hg_base.specs.Number.{natural_of};
ghost use Rattle.hg_base.specs.declared.number.Natural.TheVariants.{Is};

/// A reader at a snapshot sees the last write numbered at or below it, and nothing where there is none. A group that is
/// added later changes nothing of what is seen below its number.
pub fn visible_is_the_last_write()
    ensures none { (h : History) (r : Rid) (s : ℕ) → Each (λ w. s < w.0) (writes h r) →
        visible h r s ≡ nothing }
    ensures last { (h : History) (r : Rid) (s n : ℕ) (image : Image)
        (before after : List (ℕ × Image)) → writes h r ≡ before ++ (n, image) ∷ after →
        n ≤ s → Each (λ w. s < w.0) after → visible h r s ≡ image }
    ensures stays { (h : History) (g : Group) (r : Rid) (s : ℕ) → s ≤ length h →
        visible (h ++ g ∷ []) r s ≡ visible h r s }
{}

/// No update is lost: of two commits that write one record, the later one's snapshot is at or over the earlier one's
/// number.
pub fn updates_are_kept()
    ensures { (h : History) (m n : ℕ) (c d : Commit) (r : Rid) → NoLostUpdate h →
        Contains (group_at h m) c → Contains (group_at h n) d → IsSome (image_in r c.images) →
        IsSome (image_in r d.images) → m < n → m ≤ d.at }
{}

/// A history only grows. A line that prints no commit leaves it as it is, and lines that are right so far stay right
/// where that line is right too.
pub fn plain_line_stays_right()
    ensures history { (all : List Said) (new : Said) → committed new ≡ None →
        history_of (all ++ new ∷ []) ≡ history_of all }
    ensures right { (mode : Mode) (all : List Said) (new : Said) → AreRight mode all →
        committed new ≡ None → IsRight mode (history_of all) (all ++ new ∷ []) (onto all []) new →
        AreRight mode (all ++ new ∷ []) }
{}

/// A line that prints the next commit number adds its transaction as a group, and lines that are right so far stay right
/// where that group is one of its number, loses no update, and that line is right too.
pub fn committing_line_stays_right()
    ensures history { (all : List Said) (new : Said) →
        committed new ≡ Some (suc (length (history_of all))) →
        history_of (all ++ new ∷ []) ≡ history_of all ++ (commit_by (onto all []) new ∷ []) ∷ [] }
    ensures right { (mode : Mode) (all : List Said) (new : Said) →
        let h = history_of all in let c = commit_by (onto all []) new in
        AreRight mode all → committed new ≡ Some (suc (length h)) →
        IsGroup (suc (length h)) (c ∷ []) → LosesNothing h c →
        IsRight mode (h ++ (c ∷ []) ∷ []) (all ++ new ∷ []) (onto all []) new →
        AreRight mode (all ++ new ∷ []) }
{}

/// The records of a text determine what was printed: two printed values that fit one script and have the same records are
/// equal.
pub fn texts_determine_values()
    ensures { (script : Script) (a b : Printed) → IsFit script a → IsFit script b →
        text_records script a ≡ text_records script b → a ≡ b }
{}

/// A field is the number `k` exactly where it is what is printed for `k`.
pub fn numbers_are_decimal(_text: &[u8], _k: u64)
    ensures { (natural_of _text.now ≡ Is _k) ↔ (_text.now ≡ decimal _k) }
{}
