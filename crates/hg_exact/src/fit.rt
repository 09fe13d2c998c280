//! Laws of what is printed, each the contract of a function with no body.

ghost use Rattle.std.specs.Prelude.{◌≡◌, ℕ, ◌<◌, ◌^◌, List, map, Some, Contains};
ghost use Rattle.hg_base.specs.declared.line.Line.{Line};
ghost use Rattle.hg_base.specs.declared.line.Printed.{Printed};
ghost use Rattle.hg_base.specs.declared.rid.Rid.{Rid};
ghost use Rattle.hg_base.specs.declared.statement.Statement.TheVariants.{Put};
ghost use Rattle.hg_base.specs.declared.value.Value.{Value};
ghost use Rattle.hg_base.specs.History.{visible};
ghost use Rattle.hg_base.specs.Lists.{Each};
ghost use Rattle.hg_base.specs.Script.{Mode, Script};
ghost use Rattle.hg_base.specs.Sound.{IsSound, all_said};
ghost use Rattle.hg_base.specs.Text.{IsFit};
ghost use Rattle.hg_base.specs.Transcript.{history_of};
ghost use Rattle.hg_script.specs.Lawful.{IsLawful};
ghost use Rattle.hg_exact.specs.Modes.{rounds_beside};
ghost use Rattle.hg_exact.specs.Rows.{PrintsColumns};

/// Each row that the history of printed lines shows was put by a record of the script, be the lines sound or not.
pub fn shown_rows_were_put()
    ensures { (mode : Mode) (script : Script) (lines : List Line) (r : Rid) (s : ℕ)
        (row : List Value) →
        (visible (history_of (all_said mode script lines)) r s).row ≡ Some row →
        Contains (map (λ q. q.statement) script.records) (Put r row) }
{}

/// What is sound for a script prints rows that were put. So where each put has a value for each column, of the column's
/// kind, each row that is printed has such values too: that of a fetch the columns of the table that its session's last `open` names.
pub fn rows_have_their_columns()
    ensures { (mode : Mode) (script : Script) (printed : Printed) → IsLawful script →
        IsSound mode script printed →
        Each (PrintsColumns script) (all_said mode script printed.lines) }
{}

/// What is sound for a script also fits it: each number has its width, each line answers the record of its place as the
/// format has it, or is the report of a round that ran concurrently, and each row has its table's columns. Rounds are counted
/// in 32 bits.
pub fn what_is_sound_fits()
    ensures { (mode : Mode) (script : Script) (printed : Printed) → rounds_beside mode < 2 ^ 32 →
        IsLawful script → IsSound mode script printed → IsFit script printed }
{}
