//! Laws of the definitions, each the contract of a function that does nothing.

ghost use Rattle.std.specs.Prelude.{◌≡◌, ℕ, List};
ghost use Rattle.hg_base.specs.declared.line.Printed.{Printed};
ghost use Rattle.hg_base.specs.Script.{Script};
ghost use Rattle.hg_base.specs.Text.{IsFit, text_of};
ghost use Rattle.hg_script.specs.Lawful.{IsLawful};
ghost use Rattle.hg_records.specs.Bytes.{record_bytes};
ghost use Rattle.hg_report.specs.Readable.{IsRefusedAt};

/// One record alone is the first with which the bytes do not begin a text.
pub fn one_record_is_refused()
    ensures { (script : Script) (bytes : List ℕ) (a b : ℕ) → IsRefusedAt script bytes a →
        IsRefusedAt script bytes b → a ≡ b }
{}

/// The bytes of a text determine what was printed: two printed values that fit one script and have the same bytes are equal.
pub fn bytes_determine_values()
    ensures { (script : Script) (a b : Printed) → IsLawful script → IsFit script a → IsFit script b
        → text_of record_bytes script a ≡ text_of record_bytes script b → a ≡ b }
{}
