//! Laws of cursors, each the contract of a function with no body.

ghost use Rattle.std.specs.Prelude.{◌≡◌, ℕ, List, Option, None};
ghost use Rattle.hg_base.specs.declared.image.Image.{Image};
ghost use Rattle.hg_base.specs.History.{History};
ghost use Rattle.hg_base.specs.Replies.{AreRows};
ghost use Rattle.hg_core.specs.declared.log.LogEntry.{LogEntry};
ghost use Rattle.hg_rule.specs.declared.view.Sizes.{Sizes};
ghost use Rattle.hg_rule.specs.declared.view.View.{View};
ghost use Rattle.hg_rule.specs.Facts.{StartsWith};
ghost use Rattle.hg_rule.specs.Rules.{IsBacked};
ghost use Rattle.hg_rule.specs.Views.{HasOnlySession};
ghost use Rattle.hg_cursor.specs.Keys.{Rows};
ghost use Rattle.hg_cursor.specs.Logs.{Adds, GoesOn};
ghost use Rattle.hg_cursor.specs.Given.{begins_at, Fetched, joined};

/// The rows of all fetches, joined, are a prefix of the scan, and the whole of it where the cursor is done.
pub fn fetches_are_the_scan()
    ensures prefix { (look : ℕ → Image) (low high : ℕ) (fetches : List (ℕ × Rows))
        (rest : Option ℕ) (all : Rows) →
        Fetched look high (begins_at low high) fetches rest →
        AreRows look low high all →
        StartsWith all (joined fetches) }
    ensures whole { (look : ℕ → Image) (low high : ℕ) (fetches : List (ℕ × Rows)) (all : Rows) →
        Fetched look high (begins_at low high) fetches None →
        AreRows look low high all →
        joined fetches ≡ all }
{}

/// One history serves all fetches of a cursor: the state that backs the session's view now has every look in its log, and what
/// goes on from a later view goes on from each earlier one.
pub fn histories_go_on()
    ensures backed { (z : Sizes) (mark : ℕ) (v : View) (b : IsBacked z mark v) →
        HasOnlySession v →
        GoesOn z.buckets v b.state.history b.state.log }
    ensures earlier { (buckets : ℕ) (v w : View) (entries : List LogEntry) (h : History)
        (logs : ℕ → List LogEntry) →
        Adds v entries w →
        GoesOn buckets w h logs →
        GoesOn buckets v h logs }
{}
