//! The tables that a `begin` declares.

ghost use Rattle.std.specs.Prelude.{◌≡◌, ◌≤◌, drop, length};
ghost use Rattle.csv.specs.Records.{fields_of};
ghost use Rattle.hg_script.specs.Draft.{scope_named};

use crate::tables::Tables;
use crate::word::field;
use csv::ByteRecord;
use hg_base::Scope;

/// The scope that the fields from the third on name, if each is a table's name. A table may be named twice.
pub(crate) fn find_scope(tables: &Tables, row: &ByteRecord) -> Option<Scope>
    requires some { 2 ≤ length (fields_of row.now) }
    ensures { result ≡ scope_named tables.now (drop 2 (fields_of row.now)) }
{
    if row.len() == 2 {
        return Some(Scope::All);
    }
    let mut mask: u64 = 0;
    for i in 2..row.len() {
        let table = tables.find(field(row, i))?;
        mask |= 1 << table.0;
    }
    Some(Scope::Declared(mask))
}
