//! Rows of numbers and texts.

ghost use Rattle.std.specs.Prelude.{◌≡◌, ◌≤◌, ◌<◌, ◌++◌, ◌∷◌, [], List, length, map, get_or, IfOk, IfNone, IfSome, IsOk, IsTrue, OnOk, OnErr, Decides, false, true};
ghost use Rattle.std.specs.List.{list_any};
ghost use Rattle.hg_base.specs.declared.value.Value.TheVariants.{Number};
ghost use Rattle.hg_base.specs.Storage.{IsStored, stored_bytes, stored_numbers, is_packed};
ghost use Rattle.hg_base.specs.Packed.{IsPacked};
ghost use Rattle.hg_base.specs.Values.{is_text, number_of};

use crate::fault::NoMemory;
use crate::inline::{Inline, ROOM};
use crate::packed::{pack, packed_len, packed_value};
use crate::value::Value;
use std::alloc::Global;
use std::marker::Model;
use std::mem::size_of;

/// The values of a row: numbers alone as such, and else packed. Up to two numbers and 23 bytes are in no block of the heap.
#[derive(Debug, Drop)]
pub(crate) enum Storage {
    One([i64; 1]),
    Two([i64; 2]),
    Many(Vec<i64>),
    Short(Inline),
    Long(Vec<u8>),
}

impl Storage {
    // The numbers, and none of packed values.
    fn numbers(&self) -> &[i64]
        ensures { result.now ≡ stored_numbers self.now }
    {
        match self {
            Storage::One(numbers) => numbers,
            Storage::Two(numbers) => numbers,
            Storage::Many(numbers) => numbers,
            Storage::Short(_) => &[],
            Storage::Long(_) => &[],
        }
    }

    fn is_packed(&self) -> bool
        ensures { result ≡ is_packed self.now }
    {
        match self {
            Storage::One(_) => false,
            Storage::Two(_) => false,
            Storage::Many(_) => false,
            Storage::Short(_) => true,
            Storage::Long(_) => true,
        }
    }

    // The bytes of packed values, and none of numbers.
    fn bytes(&self) -> &[u8]
        requires { IsStored self.now }
        ensures { result.now ≡ stored_bytes self.now }
    {
        match self {
            Storage::One(_) => &[],
            Storage::Two(_) => &[],
            Storage::Many(_) => &[],
            Storage::Short(bytes) => bytes.as_bytes(),
            Storage::Long(bytes) => bytes,
        }
    }

    // Packed values, in the row itself where there is room for them.
    fn from_bytes(packed: Vec<u8>) -> Storage
        requires { IsPacked packed.items }
        ensures stored { IsStored result }
        ensures bytes { stored_bytes result ≡ packed.items }
        ensures packed { is_packed result ≡ true }
    {
        if packed.len() > ROOM {
            return Storage::Long(packed);
        }
        Storage::Short(Inline::from_slice(&packed))
    }
}

/// The values of a record, one for each column, from 1 to 8. One or two numbers, and others whose packed bytes are not more than
/// 23, lie in the row itself. All else takes one block of the heap.
#[derive(Debug, Drop)]
pub struct Row {
    storage: Storage,
}

const _: () = prove!(size_of::<Row>() == 32);

impl Model for Row {
    ghost use Rattle.std.specs.Prelude.{List, ◌≤◌, length};
    ghost use Rattle.hg_base.specs.declared.value.Value as value;
    ghost use Rattle.hg_base.specs.Storage.{IsStored, stored_values};

    ghost Value = { List value.Value };

    ghost view = { λ a. stored_values a.storage };

    ghost invariant = { λ a. (1 ≤ length (stored_values a.storage)) × (length (stored_values a.storage) ≤ 8) × IsStored a.storage };
}

fn have_text(values: &[Value]) -> bool
    ensures { result ≡ list_any is_text values.now }
{
    values.iter().any(|value| value.is_text())
}

// The numbers that the values are, and 0 for a text.
fn numbers_of(alloc: Global, values: &[Value]) -> Result<Vec<i64>, NoMemory>
    ensures { IfOk result (λ numbers. numbers.items ≡ map number_of values.now) }
{
    Ok(values.iter().map(|value| value.number()).collect(alloc)?)
}

fn are_same_numbers(a: &[i64], b: &[i64]) -> bool
    ensures { Decides result (a.now ≡ b.now) }
{
    a == b
}

fn are_same_bytes(a: &[u8], b: &[u8]) -> bool
    ensures { Decides result (a.now ≡ b.now) }
{
    a == b
}

impl Row {
    /// The row of these numbers. No memory is taken for one or two.
    pub fn from_slice(alloc: Global, numbers: &[i64]) -> Result<Row, NoMemory>
        requires some { 1 ≤ length numbers.now }
        requires most { length numbers.now ≤ 8 }
        ensures same { IfOk result (λ row. row ≡ map Number numbers.now) }
        ensures short { length numbers.now ≤ 2 → IsOk result }
    {
        let storage = match numbers.len() {
            1 => Storage::One([numbers[0]]),
            2 => Storage::Two([numbers[0], numbers[1]]),
            _ => Storage::Many(numbers.to_vec(alloc)?),
        };
        Ok(Row { storage })
    }

    /// The row of these values.
    #[tactic(auto, using(crate::proofs::Numbers::numbers_alone, crate::proofs::Packing::packed_is, crate::proofs::Packing::unpacked_back))]
    pub fn from_values(alloc: Global, values: &[Value]) -> Result<Row, NoMemory>
        requires some { 1 ≤ length values.now }
        requires most { length values.now ≤ 8 }
        ensures same { IfOk result (λ row. row ≡ values.now) }
    {
        if have_text(values) {
            let storage = Storage::from_bytes(pack(alloc, values)?);
            return Ok(Row { storage });
        }
        Row::from_slice(alloc, &numbers_of(alloc, values)?)
    }

    pub fn len(&self) -> usize
        ensures same { result ≡ length self.now }
        ensures some { 1 ≤ length self.now }
        ensures most { length self.now ≤ 8 }
    {
        if self.storage.is_packed() {
            return packed_len(self.storage.bytes());
        }
        self.storage.numbers().len()
    }

    /// The values, where all are numbers.
    pub fn numbers(&self) -> Option<&[i64]>
        ensures some { IfSome result (λ numbers. self.now ≡ map Number numbers.now) }
        ensures none { IfNone result (IsTrue (list_any is_text self.now)) }
    {
        if self.storage.is_packed() {
            return None;
        }
        Some(self.storage.numbers())
    }

    /// The value of a column, counted from 0.
    pub fn value(&self, i: usize) -> Value
        requires { i < length self.now }
        ensures { result ≡ get_or self.now i result }
    {
        if self.storage.is_packed() {
            return packed_value(self.storage.bytes(), i);
        }
        Value::Number(self.storage.numbers()[i])
    }

    /// Whether these are the same values.
    #[tactic(auto, using(crate::proofs::Holding::alone, crate::proofs::Holding::differ, crate::proofs::Holding::differ_back, crate::proofs::Numbers::same_numbers))]
    pub fn same(&self, other: &Row) -> bool
        ensures { Decides result (self.now ≡ other.now) }
    {
        match (self.storage.is_packed(), other.storage.is_packed()) {
            (true, true) => are_same_bytes(self.storage.bytes(), other.storage.bytes()),
            (false, false) => are_same_numbers(self.storage.numbers(), other.storage.numbers()),
            (true, false) => false,
            (false, true) => false,
        }
    }

    /// A row of the same values. No memory is taken for one or two numbers.
    pub fn copy(&self) -> Result<Row, NoMemory>
        ensures same { IfOk result (λ row. row ≡ self.now) }
        ensures short { length self.now ≤ 2 → list_any is_text self.now ≡ false → IsOk result }
    {
        let storage = match &self.storage {
            Storage::One(numbers) => Storage::One(*numbers),
            Storage::Two(numbers) => Storage::Two(*numbers),
            Storage::Many(numbers) => Storage::Many(numbers.to_vec(*numbers.allocator())?),
            Storage::Short(bytes) => Storage::Short(bytes.copy()),
            Storage::Long(bytes) => Storage::Long(bytes.to_vec(*bytes.allocator())?),
        };
        Ok(Row { storage })
    }
}

/// Rows with their keys, as a scan gives them.
#[derive(Debug, Drop)]
pub struct RowList {
    rows: Vec<(u64, Row)>,
}

impl Model for RowList {
    ghost use Rattle.std.specs.Prelude.{List, ℕ};
    ghost use Rattle.hg_base.specs.declared.value.Value as value;

    ghost Value = { List (ℕ × List value.Value) };

    ghost view = { λ a. a.rows.items };
}

impl From<Vec<(u64, Row)>> for RowList {
    ghost from_gives = { λ rows list. list ≡ rows.items };

    fn from(rows: Vec<(u64, Row)>) -> RowList {
        RowList { rows }
    }
}

impl RowList {
    pub fn push(&mut self, key: u64, row: Row) -> Result<(), NoMemory>
        ensures ok { OnOk result (self.new ≡ self.old ++ (key, row) ∷ []) }
        ensures err { OnErr result (self.new ≡ self.old) }
    {
        self.rows.push((key, row))?;
        Ok(())
    }

    pub fn as_slice(&self) -> &[(u64, Row)]
        ensures { result.now ≡ self.now }
    {
        &self.rows
    }

    pub fn into_vec(self) -> Vec<(u64, Row)>
        ensures { result.items ≡ self }
    {
        self.rows
    }
}
