//! A folder of the real disk. Each test makes a folder of its own where it runs, and removes it.
use crate::files::{puts, reads};
use cello_io::{FetchFault, FolderShelf, Shelf};
use cello_num::Name;
use std::fs;
use std::os::unix::fs::symlink;
use std::test::Fail;

/// Whether a file that is written again keeps its old bytes until it is sealed.
fn keeps_old_bytes(rt: &HostRuntime, folder: &str, name: Name) -> bool {
    let mut shelf = FolderShelf::new(rt, folder);
    if !puts(&mut shelf, name, b"old bytes") || !reads(&mut shelf, name, 4, b"bytes") {
        return false;
    }
    if shelf.create(name).is_err() || shelf.append(b"new") != Ok(3) {
        return false;
    }
    let stays = reads(&mut shelf, name, 0, b"old bytes");
    shelf.seal().is_ok() && stays && reads(&mut shelf, name, 0, b"new")
}

#[test]
fn a_file_is_written_and_read_back(rt: HostRuntime) -> Result<(), Fail> {
    let folder = "device_tests_written";
    let _ = fs::remove_dir_all(&rt, folder);
    fs::create_dir(&rt, folder)?;
    let name = Name::of(b"field-0000.bin").ok_or("too long")?;
    assert!(rt; keeps_old_bytes(&rt, folder, name));
    let mut shelf = FolderShelf::new(&rt, folder);
    assert!(rt; reads(&mut shelf, name, 3, b""));
    assert!(rt; reads(&mut shelf, name, 99, b""));
    fs::remove_dir_all(&rt, folder)?;
    Ok(())
}

/// How a fetch of a name ends.
fn fetch_fault(rt: &HostRuntime, folder: &str, name: Name) -> Option<FetchFault> {
    let mut buf = [0u8; 16];
    FolderShelf::new(rt, folder).fetch(name, 0, &mut buf).err()
}

/// Whether a file isn't there while it is being written.
fn hides_a_draft(rt: &HostRuntime, folder: &str, name: Name) -> bool {
    let mut shelf = FolderShelf::new(rt, folder);
    if shelf.create(name).is_err() || shelf.append(b"draft").is_err() {
        return false;
    }
    fetch_fault(rt, folder, name) == Some(FetchFault::Absent)
}

#[test]
fn a_file_is_absent_where_there_is_none(rt: HostRuntime) -> Result<(), Fail> {
    let folder = "device_tests_absent";
    let _ = fs::remove_dir_all(&rt, folder);
    fs::create_dir(&rt, folder)?;
    let name = Name::of(b"state-0000.cello").ok_or("too long")?;
    assert!(rt; fetch_fault(&rt, folder, name) == Some(FetchFault::Absent));
    assert!(rt; hides_a_draft(&rt, folder, name));
    fs::create_dir(&rt, "device_tests_absent/state-0000.cello")?;
    assert!(rt; fetch_fault(&rt, folder, name) == Some(FetchFault::Failed));
    assert!(rt; !puts(&mut FolderShelf::new(&rt, folder), name, b"bytes"));
    fs::remove_dir_all(&rt, folder)?;
    Ok(())
}

/// Whether a file is created in a folder, and then not written.
fn is_full(rt: &HostRuntime, folder: &str, name: Name) -> bool {
    let mut shelf = FolderShelf::new(rt, folder);
    shelf.create(name).is_ok() && shelf.append(b"bytes").is_err()
}

#[test]
fn a_file_that_cannot_be_written_fails(rt: HostRuntime) -> Result<(), Fail> {
    let folder = "device_tests_refused";
    let _ = fs::remove_dir_all(&rt, folder);
    let name = Name::of(b"mesh-0000.txt").ok_or("too long")?;
    assert!(rt; FolderShelf::new(&rt, folder).create(name).is_err());
    assert!(rt; FolderShelf::new(&rt, "/proc").create(name).is_err());
    fs::create_dir(&rt, folder)?;
    symlink(
        &rt,
        "/dev/full",
        "device_tests_refused/mesh-0000.txt.unfinished",
    )?;
    assert!(rt; is_full(&rt, folder, name));
    fs::remove_dir_all(&rt, folder)?;
    Ok(())
}
