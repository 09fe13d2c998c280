//! What a record says, by its first two fields.

ghost use Rattle.std.specs.Prelude.{◌≡◌, bytes_eq};
ghost use Rattle.csv.specs.Records.{fields_of};
ghost use Rattle.hg_script.specs.Fields.{is_version, nth, statement_word, word_of};

use csv::ByteRecord;

/// The version, the declaration of a table, or a statement of a session.
#[derive(Clone, Copy, PartialEq, Eq)]
pub enum Word {
    Version,
    Table,
    Begin,
    Get,
    Put,
    Del,
    Scan,
    Commit,
    Rollback,
    Gc,
    Open,
    Fetch,
    Close,
}

/// The field at this place, counted from 0, and no bytes where there is none.
pub(crate) fn field(row: &ByteRecord, i: usize) -> &[u8]
    ensures { result.now ≡ nth (fields_of row.now) i }
{
    match row.get(i) {
        Some(bytes) => bytes,
        None => &[],
    }
}

/// Whether the text is this word.
pub(crate) fn is_word(text: &[u8], word: &[u8]) -> bool
    ensures { result ≡ bytes_eq text.now word.now }
{
    text == word
}

fn read_statement_word(word: &[u8]) -> Option<Word>
    ensures { result ≡ statement_word word.now }
{
    if is_word(word, b"begin") {
        Some(Word::Begin)
    } else if is_word(word, b"get") {
        Some(Word::Get)
    } else if is_word(word, b"put") {
        Some(Word::Put)
    } else if is_word(word, b"del") {
        Some(Word::Del)
    } else if is_word(word, b"scan") {
        Some(Word::Scan)
    } else if is_word(word, b"commit") {
        Some(Word::Commit)
    } else if is_word(word, b"rollback") {
        Some(Word::Rollback)
    } else if is_word(word, b"gc") {
        Some(Word::Gc)
    } else if is_word(word, b"open") {
        Some(Word::Open)
    } else if is_word(word, b"fetch") {
        Some(Word::Fetch)
    } else if is_word(word, b"close") {
        Some(Word::Close)
    } else {
        None
    }
}

// Only the first record may say the version.
fn says_version(place: u64, row: &ByteRecord) -> bool
    ensures { result ≡ is_version place (fields_of row.now) }
{
    place == 1 && is_word(field(row, 0), b"version")
}

impl Word {
    /// The word of the record at this place, if it has one.
    pub(crate) fn read(place: u64, row: &ByteRecord) -> Option<Word>
        ensures { result ≡ word_of place (fields_of row.now) }
    {
        if says_version(place, row) {
            return Some(Word::Version);
        }
        if is_word(field(row, 0), b"table") {
            return Some(Word::Table);
        }
        read_statement_word(field(row, 1))
    }
}
