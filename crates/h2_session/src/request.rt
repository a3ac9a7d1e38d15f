//! Whether the headers of a request are malformed. No call takes memory.

ghost use Rattle.std.specs.Prelude.{◌≡◌, ◌==◌, ◌≤◌, length};
ghost use Rattle.std.specs.List.{list_all, list_any};
ghost use Rattle.hpack_tables.specs.declared.header.Header.{Header as AHeader};
ghost use Rattle.hpack_tables.specs.Encoding.{has_name};
ghost use Rattle.h2_session.specs.Requests.{is_upper, is_name, is_pseudo, is_pseudo_name, is_connection_name, count_of, count_pseudo, pseudo_first, has_request_line, is_malformed};

use hpack_tables::Header;

fn has_upper(name: &[u8]) -> bool
    ensures { result ≡ list_any is_upper name.now }
{
    name.iter().any(|b| b'A' <= *b && *b <= b'Z')
}

fn is_name(name: &[u8]) -> bool
    ensures { result ≡ is_name name.now }
{
    !name.is_empty() && !has_upper(name)
}

fn are_named(headers: &[Header]) -> bool
    ensures { result ≡ list_all (λ (h : AHeader). is_name h.name) headers.now }
{
    headers.iter().all(|h| is_name(h.name.as_slice()))
}

fn is_pseudo_name(name: &[u8]) -> bool
    ensures { result ≡ is_pseudo_name name.now }
{
    match name {
        [first, ..] => *first == b':',
        [] => false,
    }
}

fn is_pseudo(header: &Header) -> bool
    ensures { result ≡ is_pseudo header.now }
{
    is_pseudo_name(header.name.as_slice())
}

fn any_pseudo(headers: &[Header]) -> bool
    ensures { result ≡ list_any is_pseudo headers.now }
{
    headers.iter().any(|h| is_pseudo(h))
}

fn is_connection_name(name: &[u8]) -> bool
    ensures { result ≡ is_connection_name name.now }
{
    name == b"connection".as_slice()
        || name == b"proxy-connection".as_slice()
        || name == b"keep-alive".as_slice()
        || name == b"transfer-encoding".as_slice()
        || name == b"upgrade".as_slice()
}

fn any_of_connection(headers: &[Header]) -> bool
    ensures { result ≡ list_any (λ (h : AHeader). is_connection_name h.name) headers.now }
{
    headers
        .iter()
        .any(|h| is_connection_name(h.name.as_slice()))
}

fn has_name(name: &[u8], header: &Header) -> bool
    ensures { result ≡ has_name name.now header.now }
{
    header.name.as_slice() == name
}

fn count_of(name: &[u8], headers: &[Header]) -> usize
    ensures value { result ≡ count_of name.now headers.now }
    ensures bound { result ≤ length headers.now }
{
    let mut count = 0;
    'headers: for header in headers {
        if has_name(name, header) {
            count += 1;
        }
    }
    count
}

fn count_pseudo(headers: &[Header]) -> usize
    ensures value { result ≡ count_pseudo headers.now }
    ensures bound { result ≤ length headers.now }
{
    let mut count = 0;
    'headers: for header in headers {
        if is_pseudo(header) {
            count += 1;
        }
    }
    count
}

fn pseudo_first(headers: &[Header]) -> bool
    ensures { result ≡ pseudo_first headers.now }
{
    let count = count_pseudo(headers);
    !any_pseudo(&headers[count..])
}

fn has_request_line(headers: &[Header]) -> bool
    ensures { result ≡ has_request_line headers.now }
{
    let authority = count_of(b":authority", headers);
    count_of(b":method", headers) == 1
        && count_of(b":scheme", headers) == 1
        && count_of(b":path", headers) == 1
        && authority <= 1
        && count_pseudo(headers) == 3 + authority
}

/// Whether a request with these headers is malformed (RFC 9113, section 8.1.1).
#[tactic(auto, unfolding(crate::specs::Requests::is_malformed))]
pub(crate) fn is_malformed(headers: &[Header]) -> bool
    ensures { result ≡ is_malformed headers.now }
{
    !are_named(headers)
        || any_of_connection(headers)
        || !pseudo_first(headers)
        || !has_request_line(headers)
}
