//! Cutting bytes at a separator.

ghost use Rattle.std.specs.Prelude.{◌≡◌, ◌==◌, nat_eq, position};
ghost use Rattle.std.specs.Option.{option_map};
ghost use Rattle.casd_server.specs.Cut.{cut_at};

/// The place of the first separator.
fn place_of(bytes: &[u8], separator: u8) -> Option<usize>
    ensures { result ≡ position (λ b. b == separator) bytes.now }
{
    bytes.iter().position(|b| *b == separator)
}

/// What stands before the first separator, and what stands behind it.
pub(crate) fn cut(bytes: &[u8], separator: u8) -> Option<(&[u8], &[u8])>
    ensures { option_map (λ c. (c.0.now, c.1.now)) result ≡ cut_at separator bytes.now }
{
    let place = place_of(bytes, separator)?;
    Some((&bytes[..place], &bytes[place + 1..]))
}
