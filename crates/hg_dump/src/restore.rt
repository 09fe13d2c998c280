//! Laws of import, each the contract of a function with no body.

ghost use Rattle.std.specs.Prelude.{◌≡◌, ℕ, List, length, IsFalse, IsSome, IsTrue};
ghost use Rattle.hg_base.specs.declared.line.Answer.TheVariants.{Stored};
ghost use Rattle.hg_base.specs.declared.line.Line.{Line};
ghost use Rattle.hg_base.specs.declared.rid.Rid.{Rid};
ghost use Rattle.hg_base.specs.History.{History, nothing, visible};
ghost use Rattle.hg_base.specs.Lists.{Each};
ghost use Rattle.hg_base.specs.Script.{Script, replay};
ghost use Rattle.hg_base.specs.Sound.{LinesAreSound, all_said};
ghost use Rattle.hg_base.specs.Transcript.{history_of};
ghost use Rattle.hg_script.specs.Fields.{rows_of};
ghost use Rattle.hg_script.specs.Lawful.{IsLawful};
ghost use Rattle.hg_script.specs.Meaning.{script_of};
ghost use Rattle.hg_dump.specs.Backup.{IsBackup, ShowsPutRows};
ghost use Rattle.hg_dump.specs.Dumps.{IsReadable, dump_of};
ghost use Rattle.hg_dump.specs.Records.{dump_text};
ghost use Rattle.hg_dump.specs.Rows.{is_declared, rows_at};

/// A replay of a dump stores each of its rows, and commits it. At its end the tables show what they showed at the snapshot of
/// the dump, record by record, and nothing else.
pub fn a_replay_restores_a_dump()
    ensures stored { (script : Script) (h : History) (s : ℕ) (lines : List Line) →
        LinesAreSound replay (dump_of script h s) lines →
        Each (λ line. (line.reply.answer ≡ Stored) × IsSome line.reply.number) lines }
    ensures shown { (script : Script) (h : History) (s : ℕ) (lines : List Line) →
        LinesAreSound replay (dump_of script h s) lines →
        let restored = history_of (all_said replay (dump_of script h s) lines) in
        (r : Rid) → IsTrue (is_declared script.tables r) →
        visible restored r (length restored) ≡ visible h r s }
    ensures others { (script : Script) (h : History) (s : ℕ) (lines : List Line) →
        LinesAreSound replay (dump_of script h s) lines →
        let restored = history_of (all_said replay (dump_of script h s) lines) in
        (r : Rid) → IsFalse (is_declared script.tables r) →
        visible restored r (length restored) ≡ nothing }
    ensures rows { (script : Script) (h : History) (s : ℕ) (lines : List Line) →
        LinesAreSound replay (dump_of script h s) lines →
        let restored = history_of (all_said replay (dump_of script h s) lines) in
        rows_at script.tables restored (length restored) ≡ rows_at script.tables h s }
    // so its dump is the same dump
    ensures dump { (script : Script) (h : History) (s : ℕ) (lines : List Line) →
        LinesAreSound replay (dump_of script h s) lines →
        let restored = history_of (all_said replay (dump_of script h s) lines) in
        dump_of (dump_of script h s) restored (length restored) ≡ dump_of script h s }
{}

/// The same of the text of a dump: what its records mean is the dump, and so a replay of that restores the rows. The script must be
/// lawful and its rows readable, as `a_dump_is_read_back` asks.
pub fn a_replay_of_a_dump_text_restores_it()
    ensures { (script : Script) (h : History) (s : ℕ) (lines : List Line) → IsLawful script →
        IsReadable script (rows_at script.tables h s) →
        let read = script_of (rows_of (dump_text script (rows_at script.tables h s))) in
        LinesAreSound replay read lines →
        let restored = history_of (all_said replay read lines) in
        rows_at script.tables restored (length restored) ≡ rows_at script.tables h s }
{}

/// The dump of rows that were put by the records of a lawful script is a backup: each row fits its table, as its put does, and no
/// put is that of two rows.
pub fn a_dump_of_put_rows_is_a_backup()
    ensures readable { (script : Script) (h : History) (s : ℕ) → IsLawful script →
        ShowsPutRows script.records h s → IsReadable script (rows_at script.tables h s) }
    ensures backup { (script : Script) (h : History) (s : ℕ) → IsLawful script →
        ShowsPutRows script.records h s →
        IsBackup script h s (dump_text script (rows_at script.tables h s)) }
{}
