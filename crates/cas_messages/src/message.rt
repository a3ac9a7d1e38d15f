//! What all messages have in common.

ghost use Rattle.std.specs.Prelude.{◌≡◌, ◌++◌, IfOk, OnOk, OnErr, Ok, true};
ghost use Rattle.cas_messages.specs.Fault.{Gives};
ghost use Rattle.cas_messages.specs.Table.{Table, Value, is_table};
ghost use Rattle.cas_messages.specs.Meaning.{fields_in, message_in};
ghost use Rattle.cas_messages.specs.Spelling.{spelled, AddsPart};
ghost use Rattle.cas_messages.specs.Fits.{Fits};

use crate::error::MessageError;
use proto_wire::{Bytes, Fields, OutOfMemory, Writer, fields};
use std::alloc::Global;

/// A message that is read and written by its table.
pub trait Message: Sized + Drop {
    ghost table: { Table };

    ghost value: { Self → Value table };

    /// The message that the fields spell.
    fn read_fields(alloc: Global, fields: &Fields<'_>) -> Result<Self, MessageError>
        ensures { Gives value result (fields_in table fields.now) };

    /// Adds the fields to the output. After want of memory a prefix of them may have been added.
    fn write_fields(&self, alloc: Global, out: &mut Writer) -> Result<(), OutOfMemory>
        ensures wrote { OnOk result (out.new ≡ out.old ++ spelled table (value self.now)) }
        ensures fits { OnOk result (Fits table (value self.now)) }
        ensures err { OnErr result (AddsPart out.old out.new (spelled table (value self.now))) };

    // The numbers of the rows are in ascending order.
    ghost ascends: { is_table 0 table ≡ true };

    /// The message that the bytes spell.
    final fn read(alloc: Global, bytes: &[u8]) -> Result<Self, MessageError>
        ensures { Gives value result (message_in table bytes.now) }
    {
        let fields = fields(alloc, bytes)?;
        Self::read_fields(alloc, &fields)
    }

    /// The bytes of the message.
    final fn write(&self, alloc: Global) -> Result<Bytes, OutOfMemory>
        ensures value { IfOk result (λ b. b ≡ spelled table (value self.now)) }
        ensures fits { OnOk result (Fits table (value self.now)) }
        // What is written is read.
        ensures again { IfOk result (λ b. message_in table b ≡ Ok (value self.now)) }
    {
        let mut out = Writer::new(alloc);
        self.write_fields(alloc, &mut out)?;
        Ok(out.finish())
    }
}
