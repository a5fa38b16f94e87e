//! The names of a job's volumes.
ghost use Rattle.std.specs.Prelude.{◌≡◌, ◌++◌, OnOk};
ghost use Rattle.br_jobs.specs.ListingLine.{later_text, next_text, volumes_text};

use br_session::Span;
use br_types::push_escaped;
use std::alloc::AllocError;

/// Appends a name after a comma, unless it is that of the previous volume.
fn push_next(text: &mut Vec<u8>, last: &[u8], name: &[u8]) -> Result<(), AllocError>
    ensures { OnOk result (text.new.items ≡ text.old.items ++ next_text last.now name.now) }
{
    if name == last {
        return Ok(());
    }
    text.push(b',')?;
    push_escaped(text, name)?;
    Ok(())
}

/// Appends the names of the volumes of spans after one on the volume `first`; repeated names in a
/// row are written once.
fn push_later<'s>(text: &mut Vec<u8>, first: &'s [u8], spans: &'s [Span]) -> Result<(), AllocError>
    ensures { OnOk result (text.new.items ≡ text.old.items ++ later_text first.now spans.now) }
{
    let mut last = first;
    for span in spans {
        push_next(text, last, span.vol.bytes())?;
        last = span.vol.bytes();
    }
    Ok(())
}

/// Appends the names of the volumes of spans with commas between them; repeated names in a row are
/// written once. Appends `-` if there are no spans.
pub(crate) fn push_volumes(text: &mut Vec<u8>, spans: &[Span]) -> Result<(), AllocError>
    ensures { OnOk result (text.new.items ≡ text.old.items ++ volumes_text spans.now) }
{
    match spans {
        [] => {
            text.push(b'-')?;
            Ok(())
        }
        [first, more @ ..] => {
            push_escaped(text, first.vol.bytes())?;
            push_later(text, first.vol.bytes(), more)
        }
    }
}
