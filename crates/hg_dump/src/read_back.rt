//! Laws of dumps, each the contract of a function with no body.

ghost use Rattle.std.specs.Prelude.{◌≡◌, ◌↔◌, ℕ, List, None};
ghost use Rattle.hg_base.specs.History.{History};
ghost use Rattle.hg_base.specs.Script.{Declaration, Script};
ghost use Rattle.hg_script.specs.Fields.{rows_of};
ghost use Rattle.hg_script.specs.Lawful.{IsLawful};
ghost use Rattle.hg_script.specs.Meaning.{refusal_of, script_of};
ghost use Rattle.hg_dump.specs.Records.{dump_text};
ghost use Rattle.hg_dump.specs.Rows.{AreRowsAt, Kept, rows_at};
ghost use Rattle.hg_dump.specs.Dumps.{IsReadable, dump_of, putting};

/// `read_script` returns a script whose text was written, unless memory runs out: no record of the text breaks a rule, and the
/// script that its records give is the one that was written.
pub fn a_dump_is_read_back()
    ensures accepted { (script : Script) (rows : List Kept) → IsLawful script →
        IsReadable script rows →
        refusal_of (rows_of (dump_text script rows)) ≡ None }
    ensures same { (script : Script) (rows : List Kept) → IsLawful script → IsReadable script rows →
        script_of (rows_of (dump_text script rows)) ≡ putting script rows }
    // so of a snapshot its dump
    ensures dump { (script : Script) (h : History) (s : ℕ) → IsLawful script →
        IsReadable script (rows_at script.tables h s) →
        script_of (rows_of (dump_text script (rows_at script.tables h s))) ≡ dump_of script h s }
{}

/// A snapshot has exactly one dump.
pub fn a_snapshot_has_one_dump()
    ensures { (tables : List Declaration) (h : History) (s : ℕ) (rows : List Kept) →
        AreRowsAt tables h s rows ↔ (rows ≡ rows_at tables h s) }
{}
