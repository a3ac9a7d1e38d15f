//! What holds of the definitions alone.

ghost use Rattle.std.specs.Prelude.{◌≡◌, Ok, true};
ghost use Rattle.cas_messages.specs.Table.{Table, Value, is_table};
ghost use Rattle.cas_messages.specs.Meaning.{message_in};
ghost use Rattle.cas_messages.specs.Spelling.{spelled};
ghost use Rattle.cas_messages.specs.Fits.{Fits};

/// What is written is read: the spelling of a message gives the message, whatever its table.
pub fn written_is_read()
    ensures { (table : Table) (v : Value table) → is_table 0 table ≡ true → Fits table v → message_in table (spelled table v) ≡ Ok v }
{}
