//! The files to make, each with its front, if it has one.
ghost use Rattle.std.specs.Prelude.{◌≡◌, ◌∷◌, ◌++◌, [], IfOk, OnOk};
ghost use Rattle.std.specs.List.{AllByRecursion};
ghost use Rattle.br_reread_files.specs.FileHits.{FitFronts, FitsFront};

use crate::file_hits::FileHits;
use br_join::{Fronts, Run};
use br_types::{FileKey, Path};
use std::alloc::{AllocError, Global};
use std::marker::Model;

/// A run, with the front of its file, if it has one.
#[derive(Drop)]
pub(crate) struct FileRun<'h> {
    pub(crate) key: FileKey,
    pub(crate) path: Option<&'h Path>,
    pub(crate) file: FileHits<'h>,
}

impl<'h> Model for FileRun<'h> {
    ghost use Rattle.std.specs.Prelude.{◌≡◌};
    ghost use Rattle.std.specs.List.{AllByRecursion};
    ghost use Rattle.std.specs.Option.{option_copied};
    ghost use Rattle.br_model.specs.Meaning as meaning;
    ghost use Rattle.br_join.specs.Runs as model;

    ghost Value = { model.Run };

    ghost view = { λ r. record { key = r.key; path = option_copied r.path; hits = r.file.hits } };

    ghost invariant = { λ r. AllByRecursion (λ (h : meaning.Hit). h.key ≡ r.key) r.file.hits };
}

impl<'h> FileRun<'h> {
    /// Returns the run with the front of its file.
    fn new(run: &Run<'h>, fronts: &'h Fronts) -> FileRun<'h>
        requires { FitsFront fronts.now run.now }
        ensures { result ≡ run.now }
    {
        FileRun {
            key: run.key,
            path: run.path,
            file: FileHits::new(run.hits, fronts.of(run.key)),
        }
    }
}

/// Returns the runs, each with the front of its file.
///
/// # Errors
///
/// `AllocError` if memory runs out.
pub(crate) fn with_fronts<'h>(
    alloc: Global,
    runs: &[Run<'h>],
    fronts: &'h Fronts,
) -> Result<Vec<FileRun<'h>>, AllocError>
    requires { FitFronts fronts.now runs.now }
    ensures { IfOk result (λ files. files.items ≡ runs.now) }
{
    let mut files = Vec::with_capacity(alloc, runs.len())?;
    for run in runs {
        push_run(&mut files, FileRun::new(run, fronts))?;
    }
    Ok(files)
}

/// Appends a run.
fn push_run<'h>(files: &mut Vec<FileRun<'h>>, run: FileRun<'h>) -> Result<(), AllocError>
    ensures { OnOk result (files.new.items ≡ files.old.items ++ run.entry ∷ []) }
{
    files.push(run)?;
    Ok(())
}
