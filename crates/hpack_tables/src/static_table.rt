//! The static table (RFC 7541, appendix A).

ghost use Rattle.std.specs.Prelude.{◌≡◌, map, slice_get, position};
ghost use Rattle.std.specs.Option.{option_map};
ghost use Rattle.hpack_tables.specs.Table.{static_entries, entry_of};
ghost use Rattle.hpack_tables.specs.Encoding.{has_name, is_header};

use crate::header::Header;

/// The entries, from index 1 on. One without a value has an empty value.
const STATIC: [(&str, &str); 61] = [
    (":authority", ""),
    (":method", "GET"),
    (":method", "POST"),
    (":path", "/"),
    (":path", "/index.html"),
    (":scheme", "http"),
    (":scheme", "https"),
    (":status", "200"),
    (":status", "204"),
    (":status", "206"),
    (":status", "304"),
    (":status", "400"),
    (":status", "404"),
    (":status", "500"),
    ("accept-charset", ""),
    ("accept-encoding", "gzip, deflate"),
    ("accept-language", ""),
    ("accept-ranges", ""),
    ("accept", ""),
    ("access-control-allow-origin", ""),
    ("age", ""),
    ("allow", ""),
    ("authorization", ""),
    ("cache-control", ""),
    ("content-disposition", ""),
    ("content-encoding", ""),
    ("content-language", ""),
    ("content-length", ""),
    ("content-location", ""),
    ("content-range", ""),
    ("content-type", ""),
    ("cookie", ""),
    ("date", ""),
    ("etag", ""),
    ("expect", ""),
    ("expires", ""),
    ("from", ""),
    ("host", ""),
    ("if-match", ""),
    ("if-modified-since", ""),
    ("if-none-match", ""),
    ("if-range", ""),
    ("if-unmodified-since", ""),
    ("last-modified", ""),
    ("link", ""),
    ("location", ""),
    ("max-forwards", ""),
    ("proxy-authenticate", ""),
    ("proxy-authorization", ""),
    ("range", ""),
    ("referer", ""),
    ("refresh", ""),
    ("retry-after", ""),
    ("server", ""),
    ("set-cookie", ""),
    ("strict-transport-security", ""),
    ("transfer-encoding", ""),
    ("user-agent", ""),
    ("vary", ""),
    ("via", ""),
    ("www-authenticate", ""),
];

/// The entries, in order.
#[tactic(auto, unfolding(crate::specs::Table::static_entries))]
fn entries() -> &'static [(&'static str, &'static str)]
    ensures { map (λ entry. entry_of entry.0.now entry.1.now) result.now ≡ static_entries }
{
    &STATIC
}

/// The entry at a place, from 0: its name and its value.
pub(crate) fn entry_at(place: usize) -> Option<(&'static [u8], &'static [u8])>
    ensures { option_map (λ entry. entry_of entry.0.now entry.1.now) result ≡ slice_get static_entries place }
{
    let entry = entries().get(place)?;
    Some((entry.0.as_bytes(), entry.1.as_bytes()))
}

/// Whether an entry has this name.
fn is_named(entry: &(&str, &str), name: &[u8]) -> bool
    ensures { result ≡ has_name name.now (entry_of entry.now.0.now entry.now.1.now) }
{
    entry.0.as_bytes() == name
}

/// Whether an entry is this header.
fn is_same(entry: &(&str, &str), header: &Header) -> bool
    ensures { result ≡ is_header header.now (entry_of entry.now.0.now entry.now.1.now) }
{
    is_named(entry, header.name.as_slice()) && entry.1.as_bytes() == header.value.as_slice()
}

/// The place of the first entry of a list that has this name, from 0.
fn first_named(list: &[(&str, &str)], name: &[u8]) -> Option<usize>
    ensures { result ≡ position (λ entry. has_name name.now (entry_of entry.0.now entry.1.now)) list.now }
{
    list.iter().position(|entry| is_named(entry, name))
}

/// The place of the first entry of a list that is this header, from 0.
fn first_same(list: &[(&str, &str)], header: &Header) -> Option<usize>
    ensures { result ≡ position (λ entry. is_header header.now (entry_of entry.0.now entry.1.now)) list.now }
{
    list.iter().position(|entry| is_same(entry, header))
}

/// The place of the first static entry that is this header, from 0.
pub(crate) fn place_of(header: &Header) -> Option<usize>
    ensures { result ≡ position (is_header header.now) static_entries }
{
    first_same(entries(), header)
}

/// The place of the first static entry that has this name, from 0.
pub(crate) fn place_of_name(name: &[u8]) -> Option<usize>
    ensures { result ≡ position (has_name name.now) static_entries }
{
    first_named(entries(), name)
}
