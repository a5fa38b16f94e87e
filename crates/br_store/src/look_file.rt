//! A catalogue's file and its log, copied into memory and shown from there.
ghost use Rattle.std.specs.Prelude.{◌≡◌, ◌<◌, ◌≤◌, ◌↔◌, false, true, length, IfOk, IsTrue, OnErr, OnOk};
ghost use Rattle.sqlite_disk.specs.Memory.{memory_bytes, memory_is_usable};
ghost use Rattle.sqlite.specs.Files.{file_state, IsOpened};
ghost use Rattle.sqlite.specs.Held.{IsNew};
ghost use Rattle.sqlite.specs.State.{HasCleanDisk};
ghost use Rattle.br_store.specs.Scene.{At, bytes_of};
ghost use Rattle.br_store.specs.Moments.{AreCopied, Continues, IsLogOf, IsMark, IsRead, front_of};
ghost use Rattle.br_store.specs.Look.{HasFile, IsGone, ShowsFiles, ShowsIn, together};

use crate::look_fault::LookFault;
use crate::look_sight::Sight;
use crate::look_source::Source;
use crate::look_stamp::Stamp;
use sqlite::{Connection, Error as SqlError, ErrorCode, FileStore, Files, Options};
use sqlite_disk::{Disk, Memory};
use std::alloc::Global;

/// The number of times that files in use are tried.
const TRIES: u32 = 100;

/// The number of bytes that one read asks for.
const STEP: usize = 1 << 16;

/// The first bytes of every database that is not empty.
const MAGIC: &[u8] = b"SQLite format 3\0";

/// The same while a database is made: the first byte is written last.
const UNFINISHED: &[u8] = b"\0QLite format 3\0";

/// The length of a log's header, which is another one as soon as the log begins anew.
const HEADER: usize = 32;

/// The length of the header of a log and of that of its first page.
const LOG_ROOM: usize = HEADER + 24;

/// By which it is known that neither the file was changed nor its log begun anew.
#[derive(Clone, Copy)]
struct Mark {
    stamp: Stamp,
    /// The first bytes of the log, before zeros if it has fewer.
    header: [u8; HEADER],
    /// The number of these bytes.
    len: usize,
}

/// Returns the first bytes of the log.
fn front_of(mark: &Mark) -> &[u8]
    requires { mark.now.len ≤ 32 }
    ensures { result.now ≡ front_of mark.now }
{
    &mark.header[..mark.len]
}

/// Returns whether two marks are the same.
fn are_same(one: &Mark, other: &Mark) -> bool
    requires first { one.now.len ≤ 32 }
    requires second { other.now.len ≤ 32 }
    ensures stamp { result ≡ true → one.now.stamp ≡ other.now.stamp }
    ensures front { result ≡ true → front_of one.now ≡ front_of other.now }
{
    one.stamp.is_same(&other.stamp) && front_of(one) == front_of(other)
}

/// Returns whether a log may be the marked one: if that has no whole header, it has nothing else.
fn may_be(mark: &Mark, log: &[u8]) -> bool
    requires { mark.now.len ≤ 32 }
    ensures { result ≡ true → length (front_of mark.now) < 32 → log.now ≡ front_of mark.now }
{
    let front = front_of(mark);
    if front.len() < HEADER {
        log == front
    } else {
        log.starts_with(front)
    }
}

/// The bytes of a catalogue's file and of its log.
#[derive(Drop)]
struct Copied {
    bytes: Vec<u8>,
    log: Vec<u8>,
}

/// Refuses a file beside a journal that has to be rolled back.
fn check_journal<O: Sight>(sight: &mut O) -> Result<(), LookFault>
    ensures settled { OnOk result (At (O.told sight.old) (O.moment sight.new) (λ scene. scene.has_journal ≡ false)) }
    ensures same { O.told sight.new ≡ O.told sight.old }
    ensures later { O.moment sight.old ≤ O.moment sight.new }
{
    match sight.has_journal()? {
        false => Ok(()),
        true => Err(LookFault::InUse),
    }
}

/// Appends some bytes of a file to those that were read before.
#[tactic(auto, using(crate::proofs::LookParts::more_read))]
fn read_more<O: Sight>(
    sight: &mut O,
    files: &O::Files,
    source: Source,
    part: &mut [u8],
    bytes: &mut Vec<u8>,
) -> Result<(), LookFault>
    ensures read { OnOk result (At (O.told sight.old) (O.moment sight.new)
        (λ scene. Continues (bytes_of source scene) bytes.old.items bytes.new.items)) }
    ensures more { OnOk result (length bytes.old.items < length bytes.new.items) }
    ensures same { O.told sight.new ≡ O.told sight.old }
    ensures later { O.moment sight.old ≤ O.moment sight.new }
{
    let n = sight.read_at(files, source, part, bytes.len())?;
    if n == 0 {
        // The file has become shorter.
        return Err(LookFault::InUse);
    }
    bytes.extend_from_slice(&part[..n])?;
    Ok(())
}

/// Returns whether a file that begins like this may be a database. An empty file is one without
/// tables, and a file of one byte counts as the beginning of a database.
fn may_be_database(bytes: &[u8]) -> bool {
    bytes.len() < 2 || bytes.starts_with(MAGIC) || bytes.starts_with(UNFINISHED)
}

/// Returns whether one of the files may begin like this.
fn may_begin(source: Source, bytes: &[u8]) -> bool {
    match source {
        Source::Main => may_be_database(bytes),
        Source::Log => true,
    }
}

/// Reads one of the files, which has this length, without what is appended to it meanwhile. Stops after
/// the first part of a file that is not a database.
fn read_all<O: Sight>(
    alloc: Global,
    sight: &mut O,
    files: &O::Files,
    source: Source,
    len: u64,
) -> Result<Vec<u8>, LookFault>
    requires len { At (O.told sight.old) (O.moment sight.old) (λ scene. len ≡ length (bytes_of source scene)) }
    ensures read { IfOk result (λ bytes. IsRead (O.told sight.old) source (O.moment sight.old) (O.moment sight.new) bytes.items) }
    ensures same { O.told sight.new ≡ O.told sight.old }
    ensures later { O.moment sight.old ≤ O.moment sight.new }
{
    let mut part = vec![in alloc; 0; STEP]?;
    let mut bytes = Vec::new(alloc);
    while (bytes.len() as u64) < len {
        read_more(sight, files, source, &mut part, &mut bytes)?;
        if !may_begin(source, &bytes) {
            return Err(LookFault::Database(SqlError::SqliteFailure(ErrorCode::NotADatabase)));
        }
    }
    bytes.truncate(len as usize);
    Ok(bytes)
}

/// Returns the mark of this moment. Its part of the log is the older one.
fn mark_of<O: Sight>(sight: &mut O, files: &O::Files) -> Result<Mark, LookFault>
    ensures marked { IfOk result (IsMark (O.told sight.old) (O.moment sight.old) (O.moment sight.new)) }
    ensures len { IfOk result (λ mark. At (O.told sight.old) (O.moment sight.new) (λ scene. mark.stamp.len ≡ length scene.bytes)) }
    ensures fits { IfOk result (λ mark. mark.len ≤ 32) }
    ensures same { O.told sight.new ≡ O.told sight.old }
    ensures later { O.moment sight.old ≤ O.moment sight.new }
{
    let mut header = [0; HEADER];
    let len = sight.read_header(files, &mut header)?;
    let stamp = sight.stamp(files)?;
    Ok(Mark { stamp, header, len })
}

/// Refuses files that have another mark by now.
fn check_mark<O: Sight>(sight: &mut O, files: &O::Files, mark: &Mark) -> Result<(), LookFault>
    requires { mark.now.len ≤ 32 }
    ensures marked { OnOk result (IsMark (O.told sight.old) (O.moment sight.old) (O.moment sight.new) mark.now) }
    ensures same { O.told sight.new ≡ O.told sight.old }
    ensures later { O.moment sight.old ≤ O.moment sight.new }
{
    let found = mark_of(sight, files)?;
    if are_same(&found, mark) {
        Ok(())
    } else {
        Err(LookFault::InUse)
    }
}

/// Reads the log, up to the length that it has at this moment. What was put into the file before has
/// to be in this log, so the file is read first, and the log may not be begun anew until it is read.
fn read_log<O: Sight>(
    alloc: Global,
    sight: &mut O,
    files: &O::Files,
    mark: &Mark,
) -> Result<Vec<u8>, LookFault>
    requires { mark.now.len ≤ 32 }
    ensures read { IfOk result (λ log. IsLogOf (O.told sight.old) (O.moment sight.old) (O.moment sight.new) mark.now.stamp log.items) }
    ensures same { O.told sight.new ≡ O.told sight.old }
    ensures later { O.moment sight.old ≤ O.moment sight.new }
{
    check_mark(sight, files, mark)?;
    let len = sight.log_len(files)?;
    let log = read_all(alloc, sight, files, Source::Log, len)?;
    check_mark(sight, files, mark)?;
    if may_be(mark, &log) {
        Ok(log)
    } else {
        Err(LookFault::InUse)
    }
}

/// Returns whether a log of this length may have a page.
fn has_page(len: usize) -> bool
    ensures { IsTrue result ↔ 56 ≤ len }
{
    len >= LOG_ROOM
}

/// Refuses an empty file beside a log with room for a page: what is in such a log would not be shown.
fn check_present(copied: &Copied) -> Result<(), LookFault>
    ensures present { OnOk result (HasFile copied.now.bytes.items copied.now.log.items) }
    ensures gone { OnErr result (IsGone copied.now.bytes.items copied.now.log.items) }
{
    if copied.bytes.is_empty() && has_page(copied.log.len()) {
        return Err(LookFault::InUse);
    }
    Ok(())
}

/// Reads both files, unless another program changes them or has begun to write by a journal.
fn read_both<O: Sight>(alloc: Global, sight: &mut O, files: &O::Files) -> Result<Copied, LookFault>
    ensures copied { IfOk result (AreCopied (O.told sight.old) (O.moment sight.old) (O.moment sight.new)) }
    ensures same { O.told sight.new ≡ O.told sight.old }
    ensures later { O.moment sight.old ≤ O.moment sight.new }
{
    let mark = mark_of(sight, files)?;
    let bytes = read_all(alloc, sight, files, Source::Main, mark.stamp.len)?;
    // At this moment the file is whole, and it is the one that was read, if its mark stays the same.
    check_journal(sight)?;
    let log = read_log(alloc, sight, files, &mark)?;
    Ok(Copied { bytes, log })
}

/// Reads both files, unless the file is gone.
fn read_present<O: Sight>(
    alloc: Global,
    sight: &mut O,
    files: &O::Files,
) -> Result<Copied, LookFault>
    ensures copied { IfOk result (AreCopied (O.told sight.old) (O.moment sight.old) (O.moment sight.new)) }
    ensures present { IfOk result (λ copied. HasFile copied.bytes.items copied.log.items) }
    ensures same { O.told sight.new ≡ O.told sight.old }
    ensures later { O.moment sight.old ≤ O.moment sight.new }
{
    let copied = read_both(alloc, sight, files)?;
    check_present(&copied)?;
    Ok(copied)
}

/// Reads both files, unless another program writes to them or a journal lies beside them.
fn read_once<O: Sight>(alloc: Global, sight: &mut O) -> Result<Copied, LookFault>
    ensures copied { IfOk result (AreCopied (O.told sight.old) (O.moment sight.old) (O.moment sight.new)) }
    ensures present { IfOk result (λ copied. HasFile copied.bytes.items copied.log.items) }
    ensures same { O.told sight.new ≡ O.told sight.old }
    ensures later { O.moment sight.old ≤ O.moment sight.new }
{
    let files = sight.open()?;
    // Nothing need be read while a journal is there.
    check_journal(sight)?;
    let copied = read_present(alloc, sight, &files)?;
    Ok(copied)
}

/// Reads both files. Waits while another program writes to them, but not longer than for 100 moments.
fn read_settled<O: Sight>(alloc: Global, sight: &mut O) -> Result<Copied, LookFault>
    ensures copied { IfOk result (AreCopied (O.told sight.old) (O.moment sight.old) (O.moment sight.new)) }
    ensures present { IfOk result (λ copied. HasFile copied.bytes.items copied.log.items) }
    ensures same { O.told sight.new ≡ O.told sight.old }
    ensures later { O.moment sight.old ≤ O.moment sight.new }
{
    for _ in 0..TRIES {
        match read_once(alloc, sight) {
            Err(LookFault::InUse) => sight.wait()?,
            answer => return answer,
        }
    }
    Err(LookFault::InUse)
}

/// Returns a file in memory with these bytes.
#[tactic(auto, using(crate::proofs::LookCopies::held_all))]
fn in_memory(alloc: Global, bytes: &[u8]) -> Result<Memory, LookFault>
    ensures bytes { IfOk result (λ copy. memory_bytes copy ≡ bytes.now) }
    ensures usable { IfOk result (λ copy. IsTrue (memory_is_usable copy)) }
{
    let mut copy = Memory::new(alloc);
    match copy.write_at(0, bytes) {
        Ok(()) => Ok(copy),
        Err(_) => Err(LookFault::Memory),
    }
}

/// Returns the two files in memory.
fn files_in_memory(alloc: Global, copied: &Copied) -> Result<Files<Memory>, LookFault>
    ensures db { IfOk result (λ files. memory_bytes files.db ≡ copied.now.bytes.items) }
    ensures log { IfOk result (λ files. memory_bytes files.log ≡ copied.now.log.items) }
    ensures db_usable { IfOk result (λ files. IsTrue (memory_is_usable files.db)) }
    ensures log_usable { IfOk result (λ files. IsTrue (memory_is_usable files.log)) }
{
    Ok(Files {
        log: in_memory(alloc, &copied.log)?,
        db: in_memory(alloc, &copied.bytes)?,
    })
}

/// Opens the database in two files in memory.
fn open_files(
    alloc: Global,
    files: Files<Memory>,
) -> Result<Connection<FileStore<Memory>>, LookFault>
    requires db { IsTrue (memory_is_usable files.db) }
    requires log { IsTrue (memory_is_usable files.log) }
    ensures shows { IfOk result (λ conn. ShowsIn (together (memory_bytes files.db) (memory_bytes files.log)) (file_state conn)) }
    ensures opened { IfOk result (λ conn. HasCleanDisk (file_state conn) → IsOpened conn) }
    ensures fresh { IfOk result IsNew }
{
    match Connection::open_files(alloc, files, Options::new(1)) {
        Ok(conn) => Ok(conn),
        Err((SqlError::SqliteFailure(ErrorCode::OutOfMemory), _)) => Err(LookFault::Memory),
        Err((error, _)) => Err(LookFault::Database(error)),
    }
}

/// Opens the database that the copies of a file and its log hold together.
fn open_copies(alloc: Global, copied: Copied) -> Result<Connection<FileStore<Memory>>, LookFault>
    ensures shows { IfOk result (λ conn. ShowsIn (together copied.bytes.items copied.log.items) (file_state conn)) }
    ensures opened { IfOk result (λ conn. HasCleanDisk (file_state conn) → IsOpened conn) }
    ensures fresh { IfOk result IsNew }
{
    let files = files_in_memory(alloc, &copied)?;
    // What was read is not needed while the database is opened, which takes as much again.
    drop(copied);
    open_files(alloc, files)
}

/// Shows the database in a catalogue's file and its log. Nothing is written to a file, and none is made.
///
/// # Errors
///
/// `InUse` if another program still changes the files after 100 moments or as long as the sight waits,
/// if a journal lies beside them that has to be rolled back, or the file is empty and its log has a page;
/// `Unreadable` if the file does not exist, or one of the two can't be read; `Database` if they are no
/// sound database.
pub fn look<O: Sight>(
    alloc: Global,
    sight: &mut O,
) -> Result<Connection<FileStore<Memory>>, LookFault>
    ensures same { O.told sight.new ≡ O.told sight.old }
    ensures later { O.moment sight.old ≤ O.moment sight.new }
    ensures shows { IfOk result (λ conn. ShowsFiles (O.told sight.old) (O.moment sight.old) (O.moment sight.new) (file_state conn)) }
    ensures opened { IfOk result (λ conn. HasCleanDisk (file_state conn) → IsOpened conn) }
    ensures fresh { IfOk result IsNew }
{
    let copied = read_settled(alloc, sight)?;
    open_copies(alloc, copied)
}
