//! The line of an answer.

ghost use Rattle.std.specs.Prelude.{◌≡◌, IfOk, string_bytes};
ghost use Rattle.casd_server.specs.Answer.{answer_line as line_text, call_line, line_for, numbers_line, text_or_dash, escaped_byte};
ghost use Rattle.casd_server.specs.Batch.{not_built};
ghost use Rattle.casd_server.specs.declared.answer.Answer.TheVariants as answers;
ghost use Rattle.casd_server.specs.Record.{record_view, message_text};

use crate::record_line::Record;
use casd_base::{Code, Status};
use percent_encoding::{CONTROLS, percent_encode};
use proto_wire::{Bytes, OutOfMemory, Text};
use std::alloc::Global;
use store_core::Usage;

/// What a record is answered.
#[derive(Debug, Drop)]
pub enum Answer {
    /// Of a call: the bytes of its response, or why there is none.
    Call(Result<Bytes, Status>),
    /// Of a pass: how many rows it removed, and how many bytes are used then.
    Passed { removed: u64, used: u64 },
    /// The numbers of the store.
    Used(Usage),
    /// The seat's owner went.
    Closed,
}

fn message_in_hex(alloc: Global, message: &[u8]) -> Result<String, OutOfMemory>
    ensures { IfOk result (λ s. string_bytes s ≡ message_text message.now) }
{
    if message.is_empty() {
        return Ok(String::from_str(alloc, ".")?);
    }
    Ok(hex::encode(alloc, message)?)
}

/// A status text with every byte escaped but printable ASCII without `%`, or a dash for an empty one.
fn escaped_text(alloc: Global, text: &str) -> Result<String, OutOfMemory>
    ensures { IfOk result (λ s. string_bytes s ≡ text_or_dash text.now) }
{
    if text.is_empty() {
        return Ok(String::from_str(alloc, "-")?);
    }
    let mut escaped = String::new(alloc);
    percent_encode(text.as_bytes(), CONTROLS.add(b'%')).append_to(&mut escaped)?;
    Ok(escaped)
}

fn joined_line(
    alloc: Global,
    asked: &Record,
    code: u8,
    message: &str,
    text: &str,
) -> Result<String, OutOfMemory>
    ensures { IfOk result (λ s. string_bytes s ≡ line_text (record_view asked.now) code message.now text.now) }
{
    let seat = asked.seat;
    let word = asked.word.name();
    Ok(format!(in alloc; "{seat} {word} {code} {message} {text}\n")?)
}

/// The status of what isn't built.
pub(crate) fn not_built() -> Status
    ensures { result ≡ not_built }
{
    Status {
        code: Code::Unimplemented,
        text: Text::short("not built"),
    }
}

/// The line of what a call answered, with its newline.
fn call_line(
    alloc: Global,
    asked: &Record,
    called: &Result<Bytes, Status>,
) -> Result<String, OutOfMemory>
    ensures { IfOk result (λ s. string_bytes s ≡ call_line (record_view asked.now) called.now) }
{
    match called {
        Ok(message) => {
            let message = message_in_hex(alloc, message.as_slice())?;
            joined_line(alloc, asked, 0, message.as_str(), "-")
        }
        Err(status) => {
            let text = escaped_text(alloc, status.text.as_str())?;
            joined_line(alloc, asked, status.code.number(), "-", text.as_str())
        }
    }
}

/// The line of the store's numbers, with its newline.
fn usage_line(alloc: Global, asked: &Record, usage: &Usage) -> Result<String, OutOfMemory>
    ensures { IfOk result (λ s. string_bytes s ≡ line_for (record_view asked.now) (answers.Used usage.now)) }
{
    let seat = asked.seat;
    let word = asked.word.name();
    let Usage {
        used,
        guarded,
        rows,
        low,
        high,
    } = *usage;
    Ok(format!(in alloc; "{seat} {word} {used} {guarded} {rows} {low} {high}\n")?)
}

/// The line of an answer, with its newline.
pub(crate) fn answer_line(
    alloc: Global,
    asked: &Record,
    answer: &Answer,
) -> Result<String, OutOfMemory>
    ensures { IfOk result (λ s. string_bytes s ≡ line_for (record_view asked.now) answer.now) }
{
    let seat = asked.seat;
    let word = asked.word.name();
    match answer {
        Answer::Call(called) => call_line(alloc, asked, called),
        Answer::Passed { removed, used } => {
            Ok(format!(in alloc; "{seat} {word} {removed} {used}\n")?)
        }
        Answer::Used(usage) => usage_line(alloc, asked, usage),
        Answer::Closed => Ok(format!(in alloc; "{seat} {word}\n")?),
    }
}
