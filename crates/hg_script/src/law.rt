//! Laws of the definitions, as contracts of functions that do nothing.

ghost use Rattle.std.specs.Prelude.{◌≡◌, ℕ, List, [], ◌∷◌, Some, codes};
ghost use Rattle.hg_base.specs.Script as base;
ghost use Rattle.hg_base.specs.Transcript.{has};
ghost use Rattle.hg_base.specs.declared.scope.Scope.TheVariants as scope;
ghost use Rattle.hg_script.specs.Fields.{Field};
ghost use Rattle.hg_script.specs.Draft.{is_named, set_named};
ghost use Rattle.hg_script.specs.Meaning.{refusal_of};
ghost use Rattle.hg_script.specs.declared.code.Code.TheVariants.{Order, Range};

use hg_base::TableId;

/// A declared scope has exactly the tables that its names name.
pub fn scopes_have_what_is_named(_table: TableId)
    ensures { (tables : List base.Declaration) (names : List Field) (set : ℕ) →
        set_named tables names ≡ Some set →
        has (scope.Declared set) _table ≡ is_named tables names _table }
{}

/// A get is refused while a cursor is open, a fetch is refused without one, and so is a fetch of 0 rows.
pub fn cursors_are_in_order()
    ensures get_within { refusal_of (
        (codes "table" ∷ codes "t" ∷ codes "1" ∷ [])
        ∷ (codes "1" ∷ codes "open" ∷ codes "t" ∷ codes "0" ∷ codes "9" ∷ [])
        ∷ (codes "1" ∷ codes "get" ∷ codes "t" ∷ codes "1" ∷ [])
        ∷ []) ≡ Some (3, Order) }
    ensures fetch_outside { refusal_of ((codes "1" ∷ codes "fetch" ∷ codes "2" ∷ []) ∷ []) ≡
        Some (1, Order) }
    ensures fetch_of_none { refusal_of ((codes "1" ∷ codes "fetch" ∷ codes "0" ∷ []) ∷ []) ≡
        Some (1, Range) }
{}
