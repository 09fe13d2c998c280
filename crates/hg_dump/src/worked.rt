//! Laws of an example, each the contract of a function with no body.

ghost use Rattle.std.specs.Prelude.{◌≡◌, [], ◌∷◌, false, true};
ghost use Rattle.hg_base.specs.Script.{replay, run};
ghost use Rattle.hg_base.specs.Sound.{LinesAreSound};
ghost use Rattle.hg_headline.specs.Worked as headline;
ghost use Rattle.hg_dump.specs.Dumps.{dump_of};
ghost use Rattle.hg_dump.specs.Rows.{rows_at};
ghost use Rattle.hg_dump.specs.Reader.{IsSoundWith};
ghost use Rattle.hg_dump.specs.Worked as worked;

/// Lines in which a report says that the reader held the snapshot at which it read are sound with it. They are not sound alone,
/// nor with a reader at another snapshot, nor where the report says that the snapshot was moved.
pub fn a_held_reader_is_sound_with_its_lines()
    ensures held { IsSoundWith 1 worked.script (1 ∷ []) (worked.printed 1 false) }
    ensures alone { LinesAreSound (run 1) worked.script (worked.printed 1 false).lines → ⊥ }
    ensures other { IsSoundWith 1 worked.script (0 ∷ []) (worked.printed 1 false) → ⊥ }
    ensures moved { IsSoundWith 1 worked.script (1 ∷ []) (worked.printed 1 true) → ⊥ }
{}

/// The dump of that run at its end has one row, and its replay prints sound lines.
pub fn a_dump_is_replayed()
    ensures rows { rows_at worked.script.tables headline.history 1 ≡ worked.rows }
    ensures lines { LinesAreSound replay (dump_of worked.script headline.history 1)
        worked.replayed }
{}
