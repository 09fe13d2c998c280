//! Laws of what is printed, each the contract of a function with no body.

ghost use Rattle.std.specs.Prelude.{◌≡◌, ◌<◌, ◌^◌, ℕ, List, map};
ghost use Rattle.hg_base.specs.declared.line.Printed.{Printed};
ghost use Rattle.hg_base.specs.Script.{Script, replay};
ghost use Rattle.hg_base.specs.Sound.{IsSound};
ghost use Rattle.hg_base.specs.Text.{IsFit};
ghost use Rattle.hg_exact.specs.Replayed.{plain};
ghost use Rattle.hg_script.specs.Lawful.{IsLawful};
ghost use Rattle.hg_report.specs.Readable.{IsTextOf};
ghost use Rattle.hg_dump.specs.Reader.{IsSoundWith};
ghost use Rattle.hg_run.specs.Few.{KeepsFew};
ghost use Rattle.hg_run.specs.Idle.{idle};
ghost use Rattle.hg_run.specs.Printing.{AreExact, AreTotalsOf, IsPrintedFor};
ghost use Rattle.hg_run.specs.Serving.{IsTextFor};
ghost use Rattle.hg_run.specs.Words.{Settings};

/// What is sound for a script with a session that reads all tables at some snapshots also fits it (`what_is_sound_fits`).
pub fn what_is_sound_with_a_reader_fits()
    ensures { (rounds : ℕ) (script : Script) (ats : List ℕ) (printed : Printed) →
        rounds < 2 ^ 32 → IsLawful script → IsSoundWith rounds script ats printed →
        IsFit script printed }
{}

/// The bytes of a text determine what was printed, under whichever settings: whatever fits the script and has these bytes is
/// the value that was printed. So the bytes of a script and those that a sink took for it leave no choice.
pub fn text_determines_what_was_printed()
    ensures only { (settings : Settings) (script : Script) (text : List ℕ) (other : Printed) →
        IsLawful script → (p : IsPrintedFor settings script text) → IsTextOf script text other →
        other ≡ p.printed }
    ensures served { (settings other : Settings) (bytes text : List ℕ) →
        (a : IsTextFor settings bytes text) → (b : IsTextFor other bytes text) →
        a.printed.printed ≡ b.printed.printed }
{}

/// Two replays of one script print the same, whatever the settings: all lines but for what their reports say was removed and moved, and
/// of the totals `made`, `undone` and `left`.
pub fn replays_print_the_same()
    ensures lines { (a b : Settings) (script : Script) (text other : List ℕ) →
        a.mode ≡ replay → b.mode ≡ replay →
        (p : IsPrintedFor a script text) → (q : IsPrintedFor b script other) →
        map plain p.printed.lines ≡ map plain q.printed.lines }
    ensures totals { (a b : Settings) (script : Script) (text other : List ℕ) →
        a.mode ≡ replay → b.mode ≡ replay →
        (p : IsPrintedFor a script text) → (q : IsPrintedFor b script other) →
        (p.printed.totals.made ≡ q.printed.totals.made) ×
        (p.printed.totals.undone ≡ q.printed.totals.undone) ×
        (p.printed.totals.left ≡ q.printed.totals.left) }
{}

/// Two loads of one seed print the same `made`, `undone` and `left`, with whatever options.
pub fn loads_print_the_same()
    ensures { (seed : ℕ) (a b : Settings) (text other : List ℕ) →
        (p : AreTotalsOf seed a text) → (q : AreTotalsOf seed b other) →
        (p.printed.totals.made ≡ q.printed.totals.made) ×
        (p.printed.totals.undone ≡ q.printed.totals.undone) ×
        (p.printed.totals.left ≡ q.printed.totals.left) }
{}

/// A collector that makes its rounds and removes nothing breaks `KeepsFew`, though this text is sound for its script, and exact.
pub fn an_idle_collector_holds_too_many()
    ensures sound { IsSound replay idle.script idle.printed }
    ensures exact { AreExact replay idle.script idle.printed.lines }
    ensures few { KeepsFew idle.script idle.printed.lines → ⊥ }
{}
