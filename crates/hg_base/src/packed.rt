//! The values of a row as bytes, one after the other.
//!
//!     [ 2 | 3 a , b | 255 7 0 0 0 0 0 0 0 ]       two values: the text `a,b` and the number 7
//!
//! A first byte says how many values there are. A text is its length and its bytes, and a number is 255 and its eight bytes.

ghost use Rattle.std.specs.Prelude.{◌≡◌, ◌≤◌, ◌<◌, ◌++◌, drop, get_or, length, take, IfOk, OnOk};
ghost use Rattle.std.specs.Int.{w64, cast_signed, cast_unsigned, from_le_bytes, to_le_bytes};
ghost use Rattle.hg_base.specs.Packed.{IsPacked, IsWhole, front_size, front_value, packed, packed_value, unpacked};
ghost use Rattle.hg_base.specs.Lists.{Each};
ghost use Rattle.hg_base.specs.Values.{FitsValue};
ghost use Rattle.hg_base.specs.declared.limits.TheConstants.{MOST_TEXT_BYTES};

use crate::fault::NoMemory;
use crate::text::Text;
use crate::value::Value;
use std::alloc::Global;

// The byte before the eight bytes of a number. It is the length of no text.
const NUMBER: u8 = 255;

// How many bytes the first value has.
fn front_size(bytes: &[u8]) -> usize
    ensures { result ≡ front_size bytes.now }
{
    match bytes.first() {
        None => 0,
        Some(&NUMBER) => 9,
        Some(&count) => count as usize + 1,
    }
}

// The bytes after that value.
fn behind_front(bytes: &[u8]) -> &[u8]
    requires { front_size bytes.now ≤ length bytes.now }
    ensures { result.now ≡ drop (front_size bytes.now) bytes.now }
{
    &bytes[front_size(bytes)..]
}

fn number_of(bytes: &[u8]) -> i64
    requires { 8 ≤ length bytes.now }
    ensures { result ≡ cast_signed w64 (from_le_bytes w64 (take 8 bytes.now)) }
{
    let mut lowest_first = [0; 8];
    lowest_first.copy_from_slice(&bytes[..8]);
    i64::from_le_bytes(lowest_first)
}

fn text_of(bytes: &[u8], count: usize) -> Text
    requires there { count ≤ length bytes.now }
    requires most { count ≤ MOST_TEXT_BYTES }
    ensures { result ≡ take count bytes.now }
{
    match Text::from_slice(&bytes[..count]) {
        Some(text) => text,
        None => unreachable!(),
    }
}

// The first value.
fn front_value(bytes: &[u8]) -> Value
    requires { IsWhole bytes.now }
    ensures { result ≡ front_value bytes.now }
{
    let first = bytes[0];
    if first == NUMBER {
        Value::Number(number_of(&bytes[1..]))
    } else {
        Value::Text(text_of(&bytes[1..], first as usize))
    }
}

/// How many values the bytes are.
pub(crate) fn packed_len(bytes: &[u8]) -> usize
    requires { IsPacked bytes.now }
    ensures { result ≡ length (unpacked bytes.now) }
{
    match bytes.first() {
        None => 0,
        Some(count) => *count as usize,
    }
}

/// The value at i.
#[tactic(auto, using(crate::proofs::Packing::one_small, crate::proofs::Packing::one_more, crate::proofs::Packing::one_whole, crate::proofs::Packing::one_found))]
pub(crate) fn packed_value(bytes: &[u8], i: usize) -> Value
    requires packed { IsPacked bytes.now }
    requires there { i < length (unpacked bytes.now) }
    ensures { result ≡ get_or (unpacked bytes.now) i result }
{
    let mut rest = &bytes[1..];
    for _skipped in 0..i {
        rest = behind_front(rest);
    }
    front_value(rest)
}

fn add_number(bytes: &mut Vec<u8>, n: i64) -> Result<(), NoMemory>
    ensures { OnOk result
        (bytes.new.items ≡ bytes.old.items ++ to_le_bytes w64 (cast_unsigned w64 n)) }
{
    bytes.extend_from_slice(&n.to_le_bytes())?;
    Ok(())
}

fn pack_value(bytes: &mut Vec<u8>, value: &Value) -> Result<(), NoMemory>
    ensures bytes { OnOk result (bytes.new.items ≡ bytes.old.items ++ packed_value value.now) }
    ensures fits { OnOk result (FitsValue value.now) }
{
    match value {
        Value::Number(n) => {
            bytes.push(NUMBER)?;
            add_number(bytes, *n)?;
        }
        Value::Text(text) => {
            bytes.push(text.as_bytes().len() as u8)?;
            bytes.extend_from_slice(text.as_bytes())?;
        }
    }
    Ok(())
}

/// The bytes of these values.
pub(crate) fn pack(alloc: Global, values: &[Value]) -> Result<Vec<u8>, NoMemory>
    requires { length values.now ≤ 8 }
    ensures bytes { IfOk result (λ bytes. bytes.items ≡ packed values.now) }
    ensures fits { OnOk result (Each FitsValue values.now) }
{
    let mut bytes = Vec::new(alloc);
    bytes.push(values.len() as u8)?;
    for value in values {
        pack_value(&mut bytes, value)?;
    }
    Ok(bytes)
}
