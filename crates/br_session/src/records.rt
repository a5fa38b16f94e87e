ghost use Rattle.std.specs.Prelude.{◌≡◌, ◌+◌, ◌/◌, ◌^◌, ◌<◌, ◌≤◌, ◌∷◌, [], length, IfOk, OnOk};
ghost use Rattle.std.specs.List.{AllByRecursion};
ghost use Rattle.br_model.specs.Session.{data_records, file_records, session_records, ArePacked};
ghost use Rattle.br_model.specs.SessionHolds.{IsToSave};
ghost use Rattle.br_block.specs.Building.{IsBlockLimit};
ghost use Rattle.br_session.specs.Records.{Adds, attributes_record, digest_part};
ghost use Rattle.br_session.specs.Spans.{bytes_of};

use crate::packing::Packer;
use crate::saved::SavedFile;
use br_attr::write_attributes;
use br_types::{FileIndex, SessionKey};
use md5::{Digest, Md5};
use std::alloc::{AllocError, Global};

/// The stream of attributes.
const ATTRIBUTES: u32 = 1;

/// The stream of a file's bytes.
const DATA: u32 = 2;

/// The stream of an MD5 digest.
const DIGEST: u32 = 3;

/// The number of bytes of a data record.
const DATA_LEN: usize = 65_536;

/// Adds one record.
fn add(packer: &mut Packer, index: FileIndex, stream: u32, bytes: &[u8]) -> Result<(), AllocError>
    requires from_one { 1 ≤ stream }
    requires to_greatest { stream < 2 ^ 31 }
    requires size { length bytes.now < 2 ^ 32 }
    ensures { OnOk result (Adds packer.old packer.new (record { index = index; stream = stream; bytes = bytes.now } ∷ [])) }
{
    // The clauses of the packer, as one about a list of records.
    packer.add(index, stream, bytes)
}

/// Adds the record of a file's attributes.
fn add_attributes(
    alloc: Global,
    packer: &mut Packer,
    index: FileIndex,
    file: &SavedFile,
) -> Result<(), AllocError>
    ensures records { OnOk result (Adds packer.old packer.new (attributes_record index file.now ∷ [])) }
    ensures valid { IsToSave file.now }
{
    let _ = index.get();
    let path = file.path();
    let record = write_attributes(alloc, index, file.kind(), path, &file.stat(), file.link())?;
    add(packer, index, ATTRIBUTES, &record)
}

/// Adds the records of a file's bytes.
fn add_data(packer: &mut Packer, index: FileIndex, bytes: &[u8]) -> Result<(), AllocError>
    ensures { OnOk result (Adds packer.old packer.new (data_records index (length bytes.now / 65536 + 1) bytes.now)) }
{
    for part in bytes.chunks(DATA_LEN) {
        add(packer, index, DATA, part)?;
    }
    Ok(())
}

/// Adds the record of a file's digest, if it has one.
fn add_digest(packer: &mut Packer, index: FileIndex, file: &SavedFile) -> Result<(), AllocError>
    ensures { OnOk result (Adds packer.old packer.new (digest_part index file.now)) }
{
    if file.has_digest() {
        add(packer, index, DIGEST, &Md5::digest(file.bytes()))
    } else {
        Ok(())
    }
}

/// Adds the records of the file with this index.
fn add_file(
    alloc: Global,
    packer: &mut Packer,
    index: FileIndex,
    file: &SavedFile,
) -> Result<(), AllocError>
    ensures records { OnOk result (Adds packer.old packer.new (file_records (index, file.now))) }
    ensures valid { IsToSave file.now }
{
    add_attributes(alloc, packer, index, file)?;
    add_data(packer, index, file.bytes())?;
    add_digest(packer, index, file)
}

/// Makes the index with this number.
fn index_of(number: u32) -> FileIndex
    requires from_one { 1 ≤ number }
    requires to_greatest { number < 2 ^ 31 }
    ensures { result ≡ number }
{
    FileIndex::new(number).unwrap()
}

/// Packs the records of files into the blocks of a session.
pub(crate) fn pack(
    alloc: Global,
    files: &[SavedFile],
    session: SessionKey,
    limit: u32,
) -> Result<Vec<Vec<u8>>, AllocError>
    requires few { length files.now < 2 ^ 31 }
    requires bounds { IsBlockLimit limit }
    ensures packed { IfOk result (λ blocks. ArePacked limit session (session_records files.now) (bytes_of blocks.items)) }
    ensures valid { OnOk result (AllByRecursion IsToSave files.now) }
{
    let mut packer = Packer::new(alloc, session, limit)?;
    let mut number = 0;
    for file in files {
        number += 1;
        add_file(alloc, &mut packer, index_of(number), file)?;
    }
    packer.finish()
}
