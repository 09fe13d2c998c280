//! The states that a framer goes through.

ghost use Rattle.std.specs.Prelude.{◌≡◌, false, if◌then◌else◌};
ghost use Rattle.csv.specs.Machine as machine;
ghost use Rattle.csv.specs.Machine.{ends_at_end};
ghost use Rattle.csv.specs.Reading.{default_config};
ghost use Rattle.csv.specs.declared.parser.State.TheVariants as state;
ghost use Rattle.hg_talk.specs.Framer.{action_of, does_count, ends_mark, is_end_mark, mark_after, mark_of, state_of};

/// Where a framer is.
#[derive(Clone, Copy, PartialEq, Eq)]
pub enum At {
    /// Nothing was read yet.
    Start,
    /// All that was read is the first byte of a byte order mark.
    InMark,
    /// All that was read is the first two bytes of a byte order mark.
    LateInMark,
    StartRecord,
    StartField,
    InField,
    InQuoted,
    AfterQuote,
    AfterCr,
}

/// What a byte does.
#[derive(Clone, Copy, PartialEq, Eq)]
pub enum Act {
    /// It is of no record.
    Skip,
    /// It is a quote.
    Quote,
    Copy,
    EndField,
    EndRecord,
    EndMark,
}

fn in_field(c: u8) -> (At, Act)
    ensures state { state_of result.0 ≡ (machine.in_field default_config c).0 }
    ensures act { action_of result.1 ≡ (machine.in_field default_config c).1 }
    ensures count { does_count result.1 ≡ ends_at_end (state_of result.0) }
    ensures text { mark_of result.0 ≡ 3 }
    ensures no_mark { is_end_mark result.1 ≡ false }
{
    match c {
        b',' => (At::StartField, Act::EndField),
        b'\r' => (At::AfterCr, Act::EndRecord),
        b'\n' => (At::StartRecord, Act::EndRecord),
        _ => (At::InField, Act::Copy),
    }
}

fn start_field(c: u8) -> (At, Act)
    ensures state { state_of result.0 ≡ (machine.start_field default_config c).0 }
    ensures act { action_of result.1 ≡ (machine.start_field default_config c).1 }
    ensures count { does_count result.1 ≡ ends_at_end (state_of result.0) }
    ensures text { mark_of result.0 ≡ 3 }
    ensures no_mark { is_end_mark result.1 ≡ false }
{
    if c == b'"' {
        (At::InQuoted, Act::Quote)
    } else {
        in_field(c)
    }
}

fn start_record(c: u8) -> (At, Act)
    ensures state { state_of result.0 ≡ (machine.start_record default_config c).0 }
    ensures act { action_of result.1 ≡ (machine.start_record default_config c).1 }
    ensures count { does_count result.1 ≡ ends_at_end (state_of result.0) }
    ensures text { mark_of result.0 ≡ 3 }
    ensures no_mark { is_end_mark result.1 ≡ false }
{
    if c == b'\r' || c == b'\n' {
        (At::StartRecord, Act::Skip)
    } else {
        start_field(c)
    }
}

/// The state and the action of one byte.
pub(crate) fn step(at: At, c: u8) -> (At, Act)
    ensures state { state_of result.0 ≡ (if ends_mark (mark_of at) c then state.StartRecord
        else (machine.step default_config (state_of at) c).0) }
    ensures act { action_of result.1 ≡ (machine.step default_config (state_of at) c).1 }
    ensures count { does_count result.1 ≡ ends_at_end (state_of result.0) }
    ensures mark { mark_of result.0 ≡ mark_after (mark_of at) c }
    ensures end { is_end_mark result.1 ≡ ends_mark (mark_of at) c }
{
    match at {
        At::Start => {
            if c == 0xef {
                (At::InMark, Act::Copy)
            } else {
                start_record(c)
            }
        }
        At::InMark => {
            if c == 0xbb {
                (At::LateInMark, Act::Copy)
            } else {
                in_field(c)
            }
        }
        At::LateInMark => {
            if c == 0xbf {
                (At::StartRecord, Act::EndMark)
            } else {
                in_field(c)
            }
        }
        At::StartRecord => start_record(c),
        At::StartField => start_field(c),
        At::InField => in_field(c),
        At::InQuoted => {
            if c == b'"' {
                (At::AfterQuote, Act::Quote)
            } else {
                (At::InQuoted, Act::Copy)
            }
        }
        At::AfterQuote => {
            if c == b'"' {
                (At::InQuoted, Act::Copy)
            } else {
                in_field(c)
            }
        }
        At::AfterCr => {
            if c == b'\n' {
                (At::StartRecord, Act::Skip)
            } else {
                start_record(c)
            }
        }
    }
}
