//! Decoding of header blocks.

ghost use Rattle.std.specs.Prelude.{◌≡◌, ℕ, None, Some, Ok, IfOk, IfErr};
ghost use Rattle.hpack_tables.specs.Reading.{block_at};
ghost use Rattle.h2_session.specs.declared.fault.Stop.TheVariants.{Offence as Offends};
ghost use Rattle.h2_session.specs.Faults.{decoding_offence, refusal_code};

use crate::code::{COMPRESSION_ERROR, ENHANCE_YOUR_CALM, TABLE};
use crate::fault::Stop;
use hpack_tables::{Headers, HpackFault, Table, decode_block};
use std::alloc::Global;

/// Why a block is refused.
fn stop_of(fault: HpackFault) -> Stop
    ensures { (code : ℕ) → result ≡ Offends code → refusal_code fault ≡ Some code }
{
    match fault {
        HpackFault::OutOfMemory => Stop::OutOfMemory,
        HpackFault::ListTooLong { .. } => Stop::Offence(ENHANCE_YOUR_CALM),
        _ => Stop::Offence(COMPRESSION_ERROR),
    }
}

/// The headers of a block. After a refusal the table is a new one.
pub(crate) fn decode(alloc: Global, table: &mut Table, block: &[u8]) -> Result<Headers, Stop>
    requires { table.old.refusal ≡ None }
    ensures ok { IfOk result (λ headers. block_at table.old.dynamic block.now ≡ Ok (headers, table.new.dynamic)) }
    ensures offence { IfErr result (λ e. (code : ℕ) → e ≡ Offends code → decoding_offence (Some (block_at table.old.dynamic block.now)) ≡ Some code) }
    ensures unrefused { table.new.refusal ≡ None }
{
    match decode_block(alloc, table, block) {
        Ok(headers) => Ok(headers),
        Err(fault) => {
            *table = Table::new(alloc, TABLE);
            Err(stop_of(fault))
        }
    }
}
