//! Usual replies: each is one record of few bytes, which is written on the stack from its end, and added at once.

ghost use Rattle.std.specs.Prelude.{◌≡◌, ◌+◌, ◌<◌, ◌≤◌, ◌++◌, ◌∷◌, [], List, codes, decimal, drop, false, length, map, true, IfOk, IfSome, OnErr};
ghost use Rattle.std.specs.List.{flat_map, list_any};
ghost use Rattle.csv.specs.Writing.{needs_byte};
ghost use Rattle.hg_base.specs.declared.value.Value.TheVariants.{Number};
ghost use Rattle.hg_base.specs.Script.{Declaration};
ghost use Rattle.hg_base.specs.Text.{answer_fields, line_records, more_fields, told_as, value_field};
ghost use Rattle.hg_records.specs.Bytes.{flexible_writer, further_bytes, record_bytes};

use crate::number_fields::{put_number, put_values};
use hg_base::{Answer, Line, NoMemory, Reply, Writer};
use itoa::write_digits;

// The record of a usual reply takes no more bytes.
const USUAL_ROOM: usize = 192;

// Writes a word's field with its comma so that it ends at `end`, and returns where it starts.
#[inline(always)]
fn put_word(word: &[u8], bytes: &mut [u8], end: usize) -> usize
    requires plain { list_any (needs_byte flexible_writer) word.now ≡ false }
    requires room { (length word.now < end) × (end ≤ length bytes.old) }
    ensures written { drop result bytes.new ≡ further_bytes word.now ++ drop end bytes.old }
    ensures near { end ≡ result + length word.now + 1 }
    ensures long { length bytes.new ≡ length bytes.old }
{
    let start = end - word.len();
    bytes[start..end].copy_from_slice(word);
    bytes[start - 1] = b',';
    start - 1
}

// Writes a word and a number.
#[inline(always)]
fn put_numbered(word: &[u8], n: u64, bytes: &mut [u8], end: usize) -> usize
    requires plain { list_any (needs_byte flexible_writer) word.now ≡ false }
    requires room { (length word.now + 22 < end) × (end ≤ length bytes.old) }
    ensures written { drop result bytes.new ≡
        flat_map further_bytes (word.now ∷ decimal n ∷ []) ++ drop end bytes.old }
    ensures near { end ≤ result + length word.now + 23 }
    ensures within { result ≤ end }
    ensures long { length bytes.new ≡ length bytes.old }
{
    let after = put_number(n, bytes, end);
    put_word(word, bytes, after)
}

// Writes a word and a number, if the number is printed.
#[inline(always)]
fn put_told(word: &[u8], number: Option<u64>, bytes: &mut [u8], end: usize) -> usize
    requires plain { list_any (needs_byte flexible_writer) word.now ≡ false }
    requires room { (length word.now + 22 < end) × (end ≤ length bytes.old) }
    ensures written { drop result bytes.new ≡
        flat_map further_bytes (told_as word.now number) ++ drop end bytes.old }
    ensures near { end ≤ result + length word.now + 23 }
    ensures within { result ≤ end }
    ensures long { length bytes.new ≡ length bytes.old }
{
    match number {
        Some(n) => put_numbered(word, n, bytes, end),
        None => end,
    }
}

// Writes the values of a row.
fn put_row(values: &[i64], bytes: &mut [u8], end: usize) -> usize
    requires few { length values.now ≤ 4 }
    requires room { (92 < end) × (end ≤ length bytes.old) }
    ensures written { drop result bytes.new ≡
        flat_map further_bytes (codes "row" ∷ map value_field (map Number values.now)) ++
        drop end bytes.old }
    ensures near { end ≤ result + 92 }
    ensures within { result ≤ end }
    ensures long { length bytes.new ≡ length bytes.old }
{
    let after = put_values(values, bytes, end);
    put_word(b"row", bytes, after)
}

// Writes that a write is refused for another's.
fn put_writer(writer: Writer, bytes: &mut [u8], end: usize) -> usize
    requires room { (92 < end) × (end ≤ length bytes.old) }
    ensures written { drop result bytes.new ≡
        flat_map further_bytes
        (codes "refused" ∷ codes "open" ∷ decimal writer.session ∷ decimal writer.transaction ∷
        []) ++ drop end bytes.old }
    ensures near { end ≤ result + 92 }
    ensures within { result ≤ end }
    ensures long { length bytes.new ≡ length bytes.old }
{
    let after = put_number(writer.transaction, bytes, end);
    let after = put_numbered(b"open", u64::from(writer.session), bytes, after);
    put_word(b"refused", bytes, after)
}

// Writes that a write is refused for a newer version.
fn put_newer(number: u64, bytes: &mut [u8], end: usize) -> usize
    requires room { (92 < end) × (end ≤ length bytes.old) }
    ensures written { drop result bytes.new ≡
        flat_map further_bytes (codes "refused" ∷ codes "newer" ∷ decimal number ∷ []) ++
        drop end bytes.old }
    ensures near { end ≤ result + 92 }
    ensures within { result ≤ end }
    ensures long { length bytes.new ≡ length bytes.old }
{
    let after = put_numbered(b"newer", number, bytes, end);
    put_word(b"refused", bytes, after)
}

// Writes an answer of few bytes. The others are a scan's rows, a report, rows of texts or of many values, and a table's name.
#[inline(always)]
fn put_answer(answer: &Answer, bytes: &mut [u8], end: usize) -> Option<usize>
    requires room { (92 < end) × (end ≤ length bytes.old) }
    ensures written { (tables : List Declaration) → IfSome result (λ start.
        drop start bytes.new ≡
        flat_map further_bytes (answer_fields tables answer.now) ++ drop end bytes.old) }
    ensures alone { IfSome result (λ start. more_fields answer.now ≡ []) }
    ensures near { IfSome result (λ start. end ≤ start + 92) }
    ensures within { IfSome result (λ start. start ≤ end) }
    ensures long { length bytes.new ≡ length bytes.old }
{
    match answer {
        Answer::Begun(snapshot) => Some(put_numbered(b"begun", *snapshot, bytes, end)),
        Answer::Stored => Some(put_word(b"stored", bytes, end)),
        Answer::Found(row) => match row.numbers() {
            Some(values) if values.len() <= 4 => Some(put_row(values, bytes, end)),
            _ => None,
        },
        Answer::Nothing => Some(put_word(b"none", bytes, end)),
        Answer::Gone => Some(put_word(b"gone", bytes, end)),
        Answer::Committed(number) => Some(put_numbered(b"committed", *number, bytes, end)),
        Answer::Ended => Some(put_word(b"ended", bytes, end)),
        Answer::Undone => Some(put_word(b"undone", bytes, end)),
        Answer::Newer(number) => Some(put_newer(*number, bytes, end)),
        Answer::OpenBy(writer) => Some(put_writer(*writer, bytes, end)),
        Answer::Beside => Some(put_word(b"beside", bytes, end)),
        Answer::Rows(_) => None,
        Answer::Undeclared(_) => None,
        Answer::Swept(_) => None,
    }
}

// Writes a reply whose answer has few bytes.
#[inline(always)]
fn put_reply(reply: &Reply, bytes: &mut [u8], end: usize) -> Option<usize>
    requires room { (149 < end) × (end ≤ length bytes.old) }
    ensures written { (tables : List Declaration) → IfSome result (λ start.
        drop start bytes.new ≡
        flat_map further_bytes (told_as (codes "at") reply.now.at ++
        answer_fields tables reply.now.answer ++
        told_as (codes "committed") reply.now.number) ++ drop end bytes.old) }
    ensures alone { IfSome result (λ start. more_fields reply.now.answer ≡ []) }
    ensures near { IfSome result (λ start. end ≤ start + 149) }
    ensures within { IfSome result (λ start. start ≤ end) }
    ensures long { length bytes.new ≡ length bytes.old }
{
    let after = put_told(b"committed", reply.number, bytes, end);
    let after = put_answer(&reply.answer, bytes, after)?;
    Some(put_told(b"at", reply.at, bytes, after))
}

/// Adds the record of a usual reply, and answers whether the reply is usual. If it is not, nothing is added.
pub(crate) fn add_usual(text: &mut Vec<u8>, line: &Line) -> Result<bool, NoMemory>
    ensures usual { (tables : List Declaration) → IfOk result (λ is_usual.
        is_usual ≡ true → text.new.items ≡
        text.old.items ++ flat_map record_bytes (line_records tables line.now)) }
    ensures unusual { IfOk result (λ is_usual.
        is_usual ≡ false → text.new.items ≡ text.old.items) }
    ensures refused { OnErr result (text.new.items ≡ text.old.items) }
{
    let mut bytes = [0; USUAL_ROOM];
    bytes[USUAL_ROOM - 1] = b'\n';
    let Some(after) = put_reply(&line.reply, &mut bytes, USUAL_ROOM - 1) else {
        return Ok(false);
    };
    let after = put_number(line.place, &mut bytes, after);
    let start = write_digits(u64::from(line.session), &mut bytes, after);
    text.extend_from_slice(&bytes[start..])?;
    Ok(true)
}
