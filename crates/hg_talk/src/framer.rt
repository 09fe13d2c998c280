//! Records in bytes that come one at a time.
//!
//! The CSV reader reads a source as far as it pleases. A framer is given each byte, and says whether a record has ended with it. It goes
//! through the same states (`begun_after`). Two further states are for a byte order mark at the start, of which one byte or two may be all
//! that comes: until its third byte has come they are bytes of a field, and then they are forgotten.

ghost use Rattle.std.specs.Prelude.{◌≡◌, ◌≤◌, ◌++◌, ◌∷◌, [], true, IfOk, OnErr, OnOk, nat_lt, suc, if◌then◌else◌};
ghost use Rattle.csv.specs.Machine.{ends_at_end};
ghost use Rattle.hg_talk.specs.Framing.{does_end, sent_of, unframed};
ghost use Rattle.hg_talk.specs.Framer.{kept_after, long_begun};
ghost use Rattle.hg_talk.specs.Heard.{sent_by};

use crate::heard::Heard;
use crate::limits::MOST_RECORD_BYTES;
use crate::states::{Act, At, step};
use csv::ByteRecord;
use hg_base::NoMemory;
use std::alloc::Global;
use std::marker::Model;

/// The record that has begun, as far as it is no longer than a record may be.
#[derive(Drop)]
pub struct Framer {
    at: At,
    row: ByteRecord,
    field: Vec<u8>,
    // how many bytes it has, and one more than it may have for all that has more
    size: usize,
}

impl Model for Framer {
    ghost use Rattle.std.specs.Prelude.{◌≡◌, []};
    ghost use Rattle.csv.specs.Records.{fields_of, partial_of};
    ghost use Rattle.hg_talk.specs.Framer.{Kept, mark_of, state_of};

    ghost Value = { Kept };

    ghost view = { λ f. record {
      mark = mark_of f.at;
      begun = record {
        state = state_of f.at;
        fields = fields_of f.row;
        field = f.field.items;
        size = f.size;
      };
    } };

    ghost invariant = { λ f. partial_of f.row ≡ [] };
}

impl Framer {
    /// Nothing was read yet.
    pub fn new(alloc: Global) -> Framer
        ensures { result ≡ record { mark = 0; begun = unframed.begun } }
    {
        Framer {
            at: At::Start,
            row: ByteRecord::new(alloc),
            field: Vec::new(alloc),
            size: 0,
        }
    }

    /// The record that has ended.
    pub fn heard(&self) -> Heard<'_>
        ensures { sent_by result ≡ sent_of self.now.begun.size self.now.begun.fields }
    {
        if self.size > MOST_RECORD_BYTES {
            return Heard::Long;
        }
        Heard::Record(&self.row)
    }

    /// Takes the next byte. The answer is whether the record has ended with it.
    pub fn push(&mut self, byte: u8) -> Result<bool, NoMemory>
        ensures after { OnOk result (self.new ≡ kept_after self.old byte) }
        ensures ends { IfOk result (λ ended. ended ≡ does_end self.old.begun byte) }
        // Of a record that is too long nothing is kept, so that memory cannot run out.
        ensures short { OnErr result (self.old.begun.size ≤ MOST_RECORD_BYTES) }
    {
        let (at, act) = step(self.at, byte);
        self.at = at;
        match act {
            Act::Skip => Ok(false),
            Act::Quote => {
                self.count();
                Ok(false)
            }
            Act::Copy => {
                if self.count() {
                    self.field.push(byte)?;
                }
                Ok(false)
            }
            Act::EndField => {
                if self.count() {
                    self.end_field()?;
                }
                Ok(false)
            }
            Act::EndRecord => {
                if self.size <= MOST_RECORD_BYTES {
                    self.end_field()?;
                }
                Ok(true)
            }
            Act::EndMark => {
                self.field.clear();
                self.clear();
                Ok(false)
            }
        }
    }

    // Counts a byte of the record. The answer is whether it is kept: if not, the record is too long, and none of its bytes are.
    fn count(&mut self) -> bool
        ensures kept { result ≡ nat_lt self.old.begun.size MOST_RECORD_BYTES }
        ensures after { self.new ≡ (if result
            then record self.old { begun = record self.old.begun { size = suc self.old.begun.size } }
            else record self.old { begun = long_begun self.old.begun.state }) }
    {
        if self.size < MOST_RECORD_BYTES {
            self.size += 1;
            return true;
        }
        self.row.clear();
        self.field.clear();
        self.size = MOST_RECORD_BYTES + 1;
        false
    }

    // The field at hand is whole.
    fn end_field(&mut self) -> Result<(), NoMemory>
        ensures { OnOk result (self.new ≡ record self.old {
          begun = record self.old.begun {
            fields = self.old.begun.fields ++ self.old.begun.field ∷ [];
            field = [];
          };
        }) }
    {
        if self.row.push_field(&self.field).is_err() {
            self.row.clear();
            return Err(NoMemory);
        }
        self.field.clear();
        Ok(())
    }

    /// Nothing more comes. The answer is whether a record ends so.
    pub fn finish(&mut self) -> Result<bool, NoMemory>
        ensures ends { IfOk result (λ ended. ended ≡ ends_at_end self.old.begun.state) }
        ensures sent { IfOk result (λ ended. ended ≡ true →
            sent_of self.new.begun.size self.new.begun.fields ≡
            sent_of self.old.begun.size (self.old.begun.fields ++ self.old.begun.field ∷ [])) }
        ensures short { OnErr result (self.old.begun.size ≤ MOST_RECORD_BYTES) }
    {
        match self.at {
            At::Start | At::StartRecord | At::AfterCr => Ok(false),
            _ => {
                if self.size <= MOST_RECORD_BYTES {
                    self.end_field()?;
                }
                Ok(true)
            }
        }
    }

    /// Another record begins.
    pub fn clear(&mut self)
        ensures { self.new ≡ record self.old { begun = record self.old.begun { fields = []; size = 0 } } }
    {
        self.row.clear();
        self.size = 0;
    }
}
