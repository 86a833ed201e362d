//! A real file as a disk.
use crate::keeping::keeps;
use disk_edge::{Disk, DiskFailed, FileDisk, PathDisk};
use journal_disk::{Group, is_whole_pair};
use std::alloc::{AllocGlobal, Global};
use std::fs;
use std::fs::{File, Files, OpenOptions};
use std::os::unix::fs::symlink;
use std::process::Abort;
use std::test::Fail;
use wire_records::Memory;

// What was written is there when the file is opened again. A file that can't be written or that couldn't be opened fails.
#[test]
fn file_keeps_bytes(rt: HostRuntime) -> Result<(), Fail> {
    let path = "bytes.disk";
    let file = OpenOptions::new()
        .read(true)
        .write(true)
        .create(true)
        .truncate(true)
        .open(&rt, path)?;
    let mut disk = FileDisk::new(Some(file));
    assert_eq!(rt; disk.length(), Ok(0));
    assert_eq!(rt; disk.write_at(0, b"abcdef"), Ok(()));
    assert_eq!(rt; disk.write_at(2, b"xyz"), Ok(()));
    assert_eq!(rt; disk.cut(4), Ok(()));
    assert_eq!(rt; disk.sync(), Ok(()));
    let mut again = FileDisk::new(Some(File::open(&rt, path)?));
    let mut bytes = [0; 4];
    assert_eq!(rt; again.length(), Ok(4));
    assert_eq!(rt; again.read_at(0, &mut bytes), Ok(()));
    assert_eq!(rt; &bytes, b"abxy");
    assert_eq!(rt; again.read_at(1, &mut bytes), Err(DiskFailed));
    assert_eq!(rt; again.write_at(0, b"z"), Err(DiskFailed));
    assert_eq!(rt; again.cut(1), Err(DiskFailed));
    fs::remove_file(&rt, path)?;
    let mut none = FileDisk::new(None);
    assert_eq!(rt; none.length(), Err(DiskFailed));
    assert_eq!(rt; none.read_at(0, &mut bytes), Err(DiskFailed));
    assert_eq!(rt; none.write_at(0, b"z"), Err(DiskFailed));
    assert_eq!(rt; none.cut(0), Err(DiskFailed));
    assert_eq!(rt; none.sync(), Err(DiskFailed));
    Ok(())
}

// A journal in a real file continues when it is opened again. While one disk is over a file, another one over it fails.
#[test]
fn file_keeps_pairs(rt: HostRuntime) -> Result<(), Fail> {
    let alloc = rt.alloc();
    let path = "pairs.disk";
    for want in [b"".as_slice(), b"\x07", b"\x07\x07"] {
        let mut disk = PathDisk::open(&rt, path);
        keeps(
            &rt,
            alloc,
            &mut disk,
            b"\x02\0\0\0\0\x82\0\0\0\x01\x07",
            &Group::new(alloc),
            want,
        );
        let mut second = PathDisk::open(&rt, path);
        assert_eq!(rt; second.sync(), Err(DiskFailed));
    }
    assert_eq!(rt; fs::read(&rt, path)?.len(), 9 + 3 * 16);
    fs::remove_file(&rt, path)?;
    Ok(())
}

// Puts an entry into a group, and then another one, which is the only one of the other group. That one is empty afterwards.
fn put_two(group: &mut Group, other: &mut Group) -> Result<(), Memory> {
    if is_whole_pair(b"\x02\0\0\0\0\x82\0\0\0\x01\x08") {
        group.push(b"\x02\0\0\0\0\x82\0\0\0\x01\x08")?;
    }
    if is_whole_pair(b"\x02\0\0\0\0\x82\0\0\0\x01\x09") {
        other.push(b"\x02\0\0\0\0\x82\0\0\0\x01\x09")?;
    }
    group.join(other)?;
    other.clear();
    group.join(other)
}

// Keeps an entry in a new file, and then a group of entries.
fn keeps_group<R: Files<File = File> + Abort>(rt: &R, alloc: Global, path: &str, group: &Group) {
    let none = Group::new(alloc);
    let mut disk = PathDisk::open(rt, path);
    keeps(
        rt,
        alloc,
        &mut disk,
        b"\x02\0\0\0\0\x82\0\0\0\x01\x07",
        &none,
        b"",
    );
    keeps(rt, alloc, &mut disk, b"", group, b"\x07");
    keeps(rt, alloc, &mut disk, b"", &none, b"\x07\x08\x09");
}

// Compares the last bytes of the entries that are kept in a file of these bytes.
fn keeps_of<R: Files<File = File> + Abort>(
    rt: &R,
    alloc: Global,
    path: &str,
    bytes: &[u8],
    want: &[u8],
) {
    if fs::write(rt, path, bytes).is_err() {
        assert!(rt; false, "{path}");
    }
    let mut disk = PathDisk::open(rt, path);
    keeps(rt, alloc, &mut disk, b"", &Group::new(alloc), want);
}

// A group is stored as its entries would be one after the other. What a crash leaves before its first commit byte is set has
// none of them, whatever was written after that byte.
#[test]
fn file_keeps_groups(rt: HostRuntime) -> Result<(), Fail> {
    let alloc = rt.alloc();
    let path = "groups.disk";
    let mut group = Group::new(alloc);
    let mut other = Group::new(alloc);
    put_two(&mut group, &mut other)?;
    assert_eq!(rt; group.len(), 32);
    assert!(rt; other.is_empty());
    keeps_group(&rt, alloc, path, &group);
    holds(
        &rt,
        path,
        b"FLOWDSK2\x01\0\0\0\x0b\x02\0\0\0\0\x82\0\0\0\x01\x07\x01\0\0\0\x0b\x02\0\0\0\0\x82\0\0\0\x01\x08\x01\0\0\0\x0b\x02\0\0\0\0\x82\0\0\0\x01\x09\0",
    );
    for rest in [
        b"\0\0\0\0\x0b\x02\0\0\0\0\x82\0\0\0\x01\x08\x01\0\0\0\x0b\x02\0\0\0\0\x82\0\0\0\x01\x09\0".as_slice(),
        b"\0\0\0\0\x0b\x02\0\0\0\0\x82\0\0\0\x01\x08\x01",
        b"\0\x01\x01\x01",
    ] {
        let mut image = Vec::from_slice(
            alloc,
            b"FLOWDSK2\x01\0\0\0\x0b\x02\0\0\0\0\x82\0\0\0\x01\x07",
        )?;
        image.extend_from_slice(rest)?;
        keeps_of(&rt, alloc, path, &image, b"\x07");
    }
    holds(
        &rt,
        path,
        b"FLOWDSK2\x01\0\0\0\x0b\x02\0\0\0\0\x82\0\0\0\x01\x07\0",
    );
    fs::remove_file(&rt, path)?;
    Ok(())
}

// If no file can be made, the first write fails, and each call from then on.
fn is_never_made<R: Files<File = File> + Abort>(rt: &R, path: &str) {
    let mut none = PathDisk::open(rt, path);
    assert_eq!(rt; none.length(), Ok(0), "{path}");
    assert_eq!(rt; none.write_at(0, b"abc"), Err(DiskFailed), "{path}");
    assert_eq!(rt; none.length(), Err(DiskFailed), "{path}");
}

// While a disk is over a file, another one over it fails, and so does one over a folder.
fn fails<R: Files<File = File> + Abort>(rt: &R, path: &str) {
    let mut disk = PathDisk::open(rt, path);
    assert_eq!(rt; disk.length(), Err(DiskFailed), "{path}");
}

// Compares the bytes that a file holds.
fn holds<R: Files<File = File> + AllocGlobal + Abort>(rt: &R, path: &str, want: &[u8]) {
    match fs::read(rt, path) {
        Ok(bytes) => assert_eq!(rt; bytes.as_slice(), want),
        Err(_) => assert!(rt; false, "{path}"),
    }
}

// If no file is there, the disk is empty. The first write makes the file, and nothing else does.
fn is_made_by_a_write<R: Files<File = File> + AllocGlobal + Abort>(rt: &R, path: &str) {
    let mut disk = PathDisk::open(rt, path);
    assert_eq!(rt; disk.sync(), Ok(()));
    assert_eq!(rt; disk.length(), Ok(0));
    assert_eq!(rt; fs::exists(rt, path).ok(), Some(false));
    assert_eq!(rt; disk.write_at(0, b"abc"), Ok(()));
    assert_eq!(rt; disk.length(), Ok(3));
    holds(rt, path, b"abc");
    fails(rt, path);
}

// A file that isn't there is an empty disk. The first write makes it, and nothing else does.
#[test]
fn file_is_made_by_a_write(rt: HostRuntime) -> Result<(), Fail> {
    fs::create_dir(&rt, "folder")?;
    let path = "folder/../folder/new.disk";
    is_made_by_a_write(&rt, path);
    fs::remove_file(&rt, path)?;
    fs::remove_dir(&rt, "folder")?;
    Ok(())
}

// No file is made through a link; if none can be made, the write fails, and each call from then on.
#[test]
fn nothing_else_is_made(rt: HostRuntime) -> Result<(), Fail> {
    symlink(&rt, "nothing", "link")?;
    for path in ["", "no/such/folder", "link"] {
        is_never_made(&rt, path);
    }
    fs::remove_file(&rt, "link")?;
    fails(&rt, ".");
    Ok(())
}
