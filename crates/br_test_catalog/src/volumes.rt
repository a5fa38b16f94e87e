//! Volumes in a folder of a disk in memory.

use crate::shown::shown;
use br_fs::{FilePath, Kind, MemDisk};
use br_test_support::Case;
use br_volume::{Drive, FolderDrive, FolderStore, VolumeStore};
use std::alloc::{AllocError, Global};

/// The files of the disk: the volumes V, W and E are in the folder `d`, and one more file is
/// outside.
const FILES: [(&[u8], &[u8]); 4] = [
    (b"V", b"beside"),
    (b"d/V", b"abcde"),
    (b"d/W", b"x"),
    (b"d/E", b""),
];

/// Makes a disk with these files, and with a folder D and a pipe P among the volumes.
fn mem_disk(alloc: Global) -> Result<MemDisk, AllocError> {
    let mut files = Vec::new(alloc);
    for (path, bytes) in FILES {
        files.push((FilePath::new(alloc, path)?, Vec::from_slice(alloc, bytes)?))?;
    }
    let mut others = Vec::new(alloc);
    others.push((FilePath::new(alloc, b"d/D")?, Kind::Folder))?;
    others.push((FilePath::new(alloc, b"d/P")?, Kind::Other))?;
    Ok(MemDisk::new(alloc, files, others))
}

/// Makes the disk of a row. `short` is `MOST:INTERRUPTS`: reads and writes are of at most MOST
/// bytes, and the next INTERRUPTS ones are interrupted. `end` is `calls:N` if calls fail after N of
/// them, or `room:N` if the disk is full after N bytes.
fn disk_of(case: &mut Case, short: &str, end: &str) -> Option<MemDisk> {
    let Ok(mut disk) = mem_disk(case.alloc()) else {
        case.fail("out of memory");
        return None;
    };
    let (most, interrupts) = case.split(short, ':');
    disk.shorten(case.u32_of(most) as usize, case.u64_of(interrupts));
    match end.split_once(':') {
        Some(("calls", number)) => disk.fail_after(case.u64_of(number)),
        Some((_, number)) => disk.fill_after(case.u64_of(number)),
        None => {}
    }
    Some(disk)
}

/// Reads `NAME:ADDR:SIZE` through the trait, and prints the result.
fn read(case: &mut Case, drive: &mut impl Drive, buf: &mut Vec<u8>, field: &str) {
    let (name, rest) = case.split(field, ':');
    let (addr, size) = case.split(rest, ':');
    let (addr, size) = (case.u64_of(addr), case.u32_of(size));
    if let Some(vol) = case.vol_of(name) {
        let got = drive.block_at(&vol, addr, size, buf);
        shown(case, &got);
        if got.is_ok() {
            case.bytes(buf);
            case.text(" ");
        }
    }
}

/// Reads from the folder of a disk with one buffer, which is not empty at first.
fn read_all(case: &mut Case, disk: MemDisk, reads: &[&str]) {
    let Ok(mut drive) = FolderDrive::over(case.alloc(), disk, "d") else {
        return case.fail("out of memory");
    };
    let mut buf = case.bytes_of("50*b");
    for field in reads {
        read(case, &mut drive, &mut buf, field);
    }
}

/// Syncs a volume through the trait, and prints the result.
fn sync(case: &mut Case, store: &mut impl VolumeStore, name: &str) {
    if let Some(vol) = case.vol_of(name) {
        shown(case, &store.sync(&vol));
    }
}

/// Appends `NAME:TEXT` through the trait, syncs the volume of `!NAME`, or asks for the length of the
/// volume NAME. Prints the result.
fn ask(case: &mut Case, store: &mut impl VolumeStore, field: &str) {
    if let Some(name) = field.strip_prefix('!') {
        return sync(case, store, name);
    }
    let (name, text) = field.split_once(':').unwrap_or((field, ""));
    let Some(vol) = case.vol_of(name) else {
        return;
    };
    if text.is_empty() {
        return shown(case, &store.length(&vol));
    }
    let bytes = case.bytes_of(text);
    shown(case, &store.append(&vol, &bytes));
}

/// Appends to the folder of a disk, and prints the bytes of V at the end.
fn append_all(case: &mut Case, disk: MemDisk, steps: &[&str]) {
    let Ok(mut store) = FolderStore::over(case.alloc(), disk, "d") else {
        return case.fail("out of memory");
    };
    for field in steps {
        ask(case, &mut store, field);
    }
    let disk = store.into_disk();
    case.bytes_or_none(disk.bytes("d/V"));
}

/// Runs a call.
pub(crate) fn run(case: &mut Case, call: &[&str]) {
    let [word, short, end, steps @ ..] = call else {
        return case.fail("a call has a field too few");
    };
    let Some(disk) = disk_of(case, short, end) else {
        return;
    };
    match *word {
        "read" => read_all(case, disk, steps),
        "append" => append_all(case, disk, steps),
        _ => case.fail("there is no such call"),
    }
}
