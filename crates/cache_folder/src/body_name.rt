//! The names of the files of bodies.

ghost use Rattle.std.specs.Prelude.{◌≡◌, IfOk, IfSome, string_bytes};
ghost use Rattle.cache_folder.specs.BodyName.{name_text};

use std::alloc::{AllocError, Global};

/// The name of a body's file: three decimal numbers joined by `-`, which say nothing of the content. Names are ordered by
/// the first number, then the second, then the third.
#[derive(Clone, Copy, Debug, PartialEq, Eq, PartialOrd, Ord)]
pub(crate) struct BodyName {
    /// The run that wrote the file, from 1.
    pub(crate) run: u64,
    /// The shelf within the run.
    pub(crate) seat: u64,
    /// The draft of that shelf, from 0.
    pub(crate) draft: u64,
}

impl BodyName {
    /// The name that is spelled so, or `None` if that is no body's: the numbers are decimal and below 2^64, without signs
    /// and leading zeros.
    pub(crate) fn parse(alloc: Global, text: &str) -> Result<Option<BodyName>, AllocError>
        ensures { IfOk result (λ found. IfSome found (λ name. name_text name ≡ text.now)) }
    {
        let Some(name) = numbers_in(text) else {
            return Ok(None);
        };
        let spelled = name.print(alloc)?;
        if spelled.as_str() == text {
            Ok(Some(name))
        } else {
            Ok(None)
        }
    }

    pub(crate) fn print(self, alloc: Global) -> Result<String, AllocError>
        ensures { IfOk result (λ text. string_bytes text ≡ name_text self) }
    {
        let BodyName { run, seat, draft } = self;
        format!(in alloc; "{run}-{seat}-{draft}")
    }
}

// The three numbers of a name, which may have signs and leading zeros. It takes no memory.
fn numbers_in(text: &str) -> Option<BodyName> {
    let (run, rest) = text.split_once('-')?;
    let (seat, draft) = rest.split_once('-')?;
    Some(BodyName {
        run: run.parse().ok()?,
        seat: seat.parse().ok()?,
        draft: draft.parse().ok()?,
    })
}
