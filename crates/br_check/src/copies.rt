//! The lines of files whose paths come more than once.
ghost use Rattle.std.specs.Prelude.{◌≡◌, ◌++◌, IfOk, map, OnOk};
ghost use Rattle.std.specs.List.{list_any};
ghost use Rattle.br_types.specs.Newest.{AreNoted, is_of, is_outdated};
ghost use Rattle.br_records.specs.ShownRecords.{outlined};
ghost use Rattle.br_check.specs.Copies.{NotesFirst, outdated_at};
ghost use Rattle.br_check.specs.Findings.{copies_at, copies_of, copy_line, lines_at, line_by, outdated};
ghost use Rattle.br_check.specs.Findings as model;

use crate::findings::push_named;
use br_records::Sketch;
use br_types::{FileKey, NewestCopies};
use std::alloc::{AllocError, Global};

/// Adds a file to copies of paths, if it has an outline.
fn note<'s>(
    copies: &mut NewestCopies<'s>,
    key: FileKey,
    sketch: &'s Sketch,
) -> Result<(), AllocError>
    ensures { OnOk result (NotesFirst copies.old copies.new (copies_at (outlined (key, sketch.now)))) }
{
    match sketch {
        Sketch::File(outline) => copies.note(key, outline.path.bytes()),
        Sketch::Fault(_) => Ok(()),
    }
}

/// Returns the files that have outlines as copies of their paths.
fn noted<'s>(
    alloc: Global,
    sketches: &'s [(FileKey, Sketch)],
) -> Result<NewestCopies<'s>, AllocError>
    ensures { IfOk result (λ copies. AreNoted copies (copies_of (map outlined sketches.now))) }
{
    let mut copies = NewestCopies::new(alloc);
    for sketch in sketches.iter().rev() {
        note(&mut copies, sketch.0, &sketch.1)?;
    }
    Ok(copies)
}

/// Returns if there is a newer copy of the path of a file among all.
fn is_old(copies: &NewestCopies<'_>, all: &[(FileKey, Sketch)], key: FileKey, path: &[u8]) -> bool
    requires { AreNoted copies.now (copies_of (map outlined all.now)) }
    ensures { result ≡ is_outdated (copies_of (map outlined all.now)) (record { key = key; path = path.now }) }
{
    // The clause of the set, for the copies that it notes here.
    copies.has_newer(key, path)
}

/// Adds a file to those that have newer copies, if it has one.
fn note_old<'s>(
    old: &mut NewestCopies<'s>,
    copies: &NewestCopies<'_>,
    all: &[(FileKey, Sketch)],
    key: FileKey,
    sketch: &'s Sketch,
) -> Result<(), AllocError>
    requires { AreNoted copies.now (copies_of (map outlined all.now)) }
    ensures { OnOk result (NotesFirst old.old old.new (outdated_at (copies_of (map outlined all.now)) (outlined (key, sketch.now)))) }
{
    match sketch {
        Sketch::File(outline) => {
            if is_old(copies, all, key, outline.path.bytes()) {
                return old.note(key, outline.path.bytes());
            }
            Ok(())
        }
        Sketch::Fault(_) => Ok(()),
    }
}

/// Returns the files that have newer copies of their paths.
fn outdated_of<'s>(
    alloc: Global,
    copies: &NewestCopies<'_>,
    all: &'s [(FileKey, Sketch)],
) -> Result<NewestCopies<'s>, AllocError>
    requires { AreNoted copies.now (copies_of (map outlined all.now)) }
    ensures { IfOk result (λ old. AreNoted old (outdated (copies_of (map outlined all.now)))) }
{
    let mut old = NewestCopies::new(alloc);
    for sketch in all.iter().rev() {
        note_old(&mut old, copies, all, sketch.0, &sketch.1)?;
    }
    Ok(old)
}

/// Returns if there is an older copy of the path of a file.
fn has_old(old: &NewestCopies<'_>, all: &[(FileKey, Sketch)], path: &[u8]) -> bool
    requires { AreNoted old.now (outdated (copies_of (map outlined all.now))) }
    ensures { result ≡ list_any (is_of path.now) (outdated (copies_of (map outlined all.now))) }
{
    old.newest(path).is_some()
}

/// Appends the line of a copy by whether there is a newer one, and whether there is an older one.
fn push_by(
    text: &mut Vec<u8>,
    is_old: bool,
    has_old: bool,
    key: FileKey,
    path: &[u8],
) -> Result<(), AllocError>
    ensures { OnOk result (text.new.items ≡ text.old.items ++ line_by is_old has_old (record { key = key; path = path.now })) }
{
    if is_old {
        push_named(text, b"older", key, path)
    } else if has_old {
        push_named(text, b"newest", key, path)
    } else {
        Ok(())
    }
}

/// The files of a check, with the newest copy of each path, and those that have newer copies.
#[derive(Clone, Copy)]
struct CheckedFiles<'k, 's> {
    all: &'k [(FileKey, Sketch)],
    copies: &'k NewestCopies<'s>,
    old: &'k NewestCopies<'s>,
}

impl CheckedFiles<'_, '_> {
    /// Appends the line of a file whose path comes more than once.
    fn push_line(&self, text: &mut Vec<u8>, key: FileKey, sketch: &Sketch) -> Result<(), AllocError>
        requires noted { AreNoted self.now.copies.now (copies_of (map outlined self.now.all.now)) }
        requires old { AreNoted self.now.old.now (outdated (copies_of (map outlined self.now.all.now))) }
        ensures { OnOk result (text.new.items ≡ text.old.items ++ lines_at (copies_of (map outlined self.now.all.now))
            (outlined (key, sketch.now))) }
    {
        match sketch {
            Sketch::File(outline) => {
                let path = outline.path.bytes();
                let is_old = is_old(self.copies, self.all, key, path);
                let has_old = has_old(self.old, self.all, path);
                push_by(text, is_old, has_old, key, path)
            }
            Sketch::Fault(_) => Ok(()),
        }
    }
}

/// Appends a line for each of the files whose path comes more than once.
fn push_lines(text: &mut Vec<u8>, known: &CheckedFiles<'_, '_>) -> Result<(), AllocError>
    requires noted { AreNoted known.now.copies.now (copies_of (map outlined known.now.all.now)) }
    requires old { AreNoted known.now.old.now (outdated (copies_of (map outlined known.now.all.now))) }
    ensures { OnOk result (text.new.items ≡ text.old.items ++ model.copy_lines (map outlined known.now.all.now)) }
{
    for sketch in known.all {
        known.push_line(text, sketch.0, &sketch.1)?;
    }
    Ok(())
}

/// Appends a line for each of the files whose path comes more than once: `older` if there is a newer copy,
/// `newest` if there are only older ones.
pub(crate) fn push_copies(
    alloc: Global,
    text: &mut Vec<u8>,
    sketches: &[(FileKey, Sketch)],
) -> Result<(), AllocError>
    ensures { OnOk result (text.new.items ≡ text.old.items ++ model.copy_lines (map outlined sketches.now)) }
{
    let copies = noted(alloc, sketches)?;
    let old = outdated_of(alloc, &copies, sketches)?;
    let known = CheckedFiles {
        all: sketches,
        copies: &copies,
        old: &old,
    };
    push_lines(text, &known)
}
