//! Numbers as a person reads them.

ghost use Rattle.std.specs.Prelude.{◌≤◌};

use arrayvec::ArrayString;
use std::fmt;
use std::fmt::{Display, Formatter, Write};

/// A number in decimal whose digits are grouped by commas, as `1,234,567`.
#[derive(Clone, Copy)]
pub(crate) struct Grouped(pub(crate) u64);

/// A number of bytes in the largest unit of which it has at least one, as `56 MiB` and `5.2 KiB`. It is rounded down.
#[derive(Clone, Copy)]
pub(crate) struct Sized(pub(crate) u64);

impl Display for Grouped {
    fn fmt<W: fmt::Write>(&self, f: &mut Formatter<W>) -> fmt::Result {
        let mut digits = ArrayString::<20>::new();
        write!(digits, "{}", self.0)?;
        for (at, digit) in digits.as_str().bytes().enumerate() {
            if at > 0 && digits.len().saturating_sub(at) % 3 == 0 {
                f.write_str(",")?;
            }
            f.write_char(char::from(digit))?;
        }
        Ok(())
    }
}

impl Display for Sized {
    fn fmt<W: fmt::Write>(&self, f: &mut Formatter<W>) -> fmt::Result {
        let bytes = self.0;
        if bytes == 1 {
            return f.write_str("1 byte");
        }
        if bytes < 1 << 10 {
            return write!(f, "{} bytes", Grouped(bytes));
        }
        let (bits, name) = unit_of(bytes);
        let whole = bytes >> bits;
        if whole < 10 {
            let tenths = (bytes >> (bits - 10)) % 1_024 * 10 / 1_024;
            write!(f, "{whole}.{tenths} {name}")
        } else {
            write!(f, "{} {name}", Grouped(whole))
        }
    }
}

// The unit of so many bytes, at least 1,024: the number of bits that it has above a byte, and its name.
fn unit_of(bytes: u64) -> (u32, &'static str)
    ensures low { 10 ≤ result.0 }
    ensures high { result.0 ≤ 60 }
{
    if bytes < 1 << 20 {
        (10, "KiB")
    } else if bytes < 1 << 30 {
        (20, "MiB")
    } else if bytes < 1 << 40 {
        (30, "GiB")
    } else if bytes < 1 << 50 {
        (40, "TiB")
    } else if bytes < 1 << 60 {
        (50, "PiB")
    } else {
        (60, "EiB")
    }
}
