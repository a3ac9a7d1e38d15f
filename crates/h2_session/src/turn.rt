//! `Turn`.

/// What a stream may write now.
#[derive(Clone, Copy, Debug)]
pub(crate) enum Turn {
    /// So many bytes of DATA.
    Piece(usize),
    /// Its trailers.
    Trailers,
}
