//! `Asked`.

ghost use Rattle.std.specs.Prelude.{◌^◌, ◌≤◌};

use store_core::Marks;

/// What the words ask for.
#[derive(Clone, Copy, Debug)]
pub(crate) struct Asked<'a> {
    pub(crate) socket: &'a str,
    pub(crate) folder: &'a str,
    pub(crate) marks: Marks,
    pub(crate) connections: u64,
    ghost few: { connections ≤ 2 ^ 21 },
}
