//! Laws of the definitions, each the contract of a function with no body.

ghost use Rattle.std.specs.Prelude.{◌≡◌, [], ◌++◌, List, false, ℕ};
ghost use Rattle.hg_journal.specs.Gate.{IsPlain, IsWhole, at_rest, has_gate, kept, place_after};
ghost use Rattle.hg_journal.specs.declared.gate.Place.TheVariants.{Start};

/// What a caller needs to know of whole texts: they join, and a record without quotes and its line feed are one. A text of other records is
/// whole if it leads from the start of a record to the start of one, and no byte of it is a gate. A file at rest keeps its text.
pub fn whole_texts_join()
    ensures none { IsWhole [] }
    ensures joined { (a b : List ℕ) → IsWhole a → IsWhole b → IsWhole (a ++ b) }
    ensures plain { (row : List ℕ) → IsPlain row → IsWhole (at_rest row) }
    ensures led { (text : List ℕ) → place_after Start text ≡ Start →
        has_gate Start text ≡ false → IsWhole text }
    ensures kept { (text : List ℕ) → IsWhole text → kept (at_rest text) ≡ text }
{}
