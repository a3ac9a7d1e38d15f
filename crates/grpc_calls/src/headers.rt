//! What headers say. Only `status_in` and `path_in` take memory.

ghost use Rattle.std.specs.Prelude.{◌≡◌, true, codes, IfOk};
ghost use Rattle.std.specs.Option.{option_map};
ghost use Rattle.std.specs.List.{list_all};
ghost use Rattle.grpc_calls.specs.Codes.{code_of};
ghost use Rattle.grpc_calls.specs.Headers.{value_of, is_value, begins_with, refusal_of, path_of, text_in, text_or_empty, is_ok, is_digit, is_number, number_on, message_in, status_by, status_in};

use crate::code::code_of;
use crate::escape::unescaped;
use crate::refusal::Refusal;
use casd_base::Status;
use hpack_tables::Header;
use proto_wire::{OutOfMemory, Text};
use std::alloc::Global;
use std::str;

/// The value of the first header with a name.
fn value_of<'a>(name: &[u8], headers: &'a [Header]) -> Option<&'a [u8]>
    ensures { option_map (λ v. v.now) result ≡ value_of name.now headers.now }
{
    'headers: for header in headers {
        if header.name.as_slice() == name {
            return Some(header.value.as_slice());
        }
    }
    None
}

/// Whether a header is there and its value is this.
fn is_value(text: &[u8], name: &[u8], headers: &[Header]) -> bool
    ensures { result ≡ is_value text.now (value_of name.now headers.now) }
{
    match value_of(name, headers) {
        Some(value) => value == text,
        None => false,
    }
}

/// Whether a header is there and its value begins with this.
fn begins_with(text: &[u8], name: &[u8], headers: &[Header]) -> bool
    ensures { result ≡ begins_with text.now (value_of name.now headers.now) }
{
    match value_of(name, headers) {
        Some(value) => {
            let count = value.len().min(text.len());
            &value[..count] == text
        }
        None => false,
    }
}

/// Why a request with these headers is answered by a status of HTTP alone, if it is.
#[tactic(auto, unfolding(crate::specs::Headers::refusal_of))]
pub(crate) fn refusal_of(headers: &[Header]) -> Option<Refusal>
    ensures { result ≡ refusal_of headers.now }
{
    if !is_value(b"POST", b":method", headers) {
        return Some(Refusal::Method);
    }
    if !begins_with(b"application/grpc", b"content-type", headers) {
        return Some(Refusal::ContentType);
    }
    None
}

fn text_or_empty(alloc: Global, bytes: &[u8]) -> Result<Text, OutOfMemory>
    ensures { IfOk result (λ t. t ≡ text_or_empty bytes.now) }
{
    match str::from_utf8(bytes) {
        Ok(text) => Text::new(alloc, text),
        Err(_) => Ok(Text::empty()),
    }
}

/// The path of the method that a request calls.
pub(crate) fn path_of(alloc: Global, headers: &[Header]) -> Result<Text, OutOfMemory>
    ensures { IfOk result (λ t. t ≡ path_of headers.now) }
{
    match value_of(b":path", headers) {
        Some(path) => text_or_empty(alloc, path),
        None => Ok(Text::empty()),
    }
}

/// Whether an answer has the status 200.
#[tactic(auto, unfolding(crate::specs::Headers::is_ok))]
pub(crate) fn is_ok(headers: &[Header]) -> bool
    ensures { result ≡ is_ok headers.now }
{
    is_value(b"200", b":status", headers)
}

fn are_digits(digits: &[u8]) -> bool
    ensures { result ≡ list_all is_digit digits.now }
{
    digits.iter().all(|d| b'0' <= *d && *d <= b'9')
}

/// The number of decimal digits, or some number above 16 where it is one.
fn number_in(digits: &[u8]) -> u32
    requires { list_all is_digit digits.now ≡ true }
    ensures { code_of result ≡ code_of (number_on 0 digits.now) }
{
    let mut number = 0u32;
    'digits: for digit in digits {
        number = (number * 10 + u32::from(digit.saturating_sub(b'0'))).min(1000);
    }
    number
}

fn message_in(alloc: Global, headers: &[Header]) -> Result<Text, OutOfMemory>
    ensures { IfOk result (λ t. t ≡ message_in (value_of (codes "grpc-message") headers.now)) }
{
    match value_of(b"grpc-message", headers) {
        Some(value) => unescaped(alloc, value),
        None => Ok(Text::empty()),
    }
}

/// The status in trailers, if there is one in decimal digits.
#[tactic(auto, unfolding(crate::specs::Headers::status_in))]
pub(crate) fn status_in(alloc: Global, headers: &[Header]) -> Result<Option<Status>, OutOfMemory>
    ensures { IfOk result (λ s. s ≡ status_in headers.now) }
{
    match value_of(b"grpc-status", headers) {
        None => Ok(None),
        Some(digits) => {
            if digits.is_empty() || !are_digits(digits) {
                return Ok(None);
            }
            let text = message_in(alloc, headers)?;
            let code = code_of(number_in(digits));
            Ok(Some(Status { code, text }))
        }
    }
}
