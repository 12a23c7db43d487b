//! Writing a file of the system. The bytes go to a new file in the same folder, which then replaces the old file. On a
//! failure the old file is unchanged and the new file is removed, unless the system refuses that too. A symbolic link
//! is preserved, and the file to which it points is replaced, or created if there is none.
use crate::files::StoreFault;
use std::alloc::{AllocError, Global};
use std::fs::{Metadata, OpenFile, OpenOptions, Permissions};
use std::io::{ErrorKind, Write};
use std::os::unix::fs::{MetadataExt, OpenOptionsExt, PermissionsExt};
use std::rt::Files;
use std::{fs, io};

// The number of names to try for a new file. Each of them may be taken by a file left by an interrupted run.
const MOST_NAMES: u32 = 1000;

// The permission bits to read, write and execute a file. The set-user-ID and set-group-ID bits are not copied to a new
// file, since its owner may differ from that of the old file.
const KEPT_PERMISSIONS: u32 = 0o777;

// The permissions with which a file is created. The system takes away those of the umask.
const USUAL_PERMISSIONS: u32 = 0o666;

// The permissions with which a file is created that receives those of the old file once its bytes are written. Nobody
// else can open it before.
const PRIVATE_PERMISSIONS: u32 = 0o600;

// The number of links to follow to a file, as in Linux.
const MOST_LINKS: u32 = 40;

// The paths at which the system exposes the output streams of a run.
const STREAMS: &[&str] = &["/dev/stdout", "/dev/stderr"];

// The folder that these paths point into, with an entry for each open stream.
const OPEN_STREAMS: &str = "/proc/self/fd";

// A new file whose name was unused.
#[derive(Drop)]
struct NewFile<F> {
    name: String,
    file: F,
}

// Replaces the contents of the file at this path, after following links, with these bytes, either completely or not at
// all.
pub(super) fn save_file<H: Files>(
    rt: &H,
    alloc: Global,
    path: &str,
    bytes: &[u8],
) -> Result<(), StoreFault> {
    let permissions = kept_permissions(rt, path)?;
    if !is_link(rt, path)? {
        return replace(rt, alloc, path, permissions, bytes);
    }
    let target = match permissions {
        Some(_) => link_target(rt, alloc, path)?,
        None => missing_target(rt, alloc, path)?,
    };
    replace(rt, alloc, target.as_str(), permissions, bytes)
}

// Returns the permissions of the file to be replaced, or `None` if there is no such file. A file that this run writes
// to cannot be replaced: later output would go to a file without a name.
fn kept_permissions<H: Files>(rt: &H, path: &str) -> Result<Option<Permissions>, StoreFault> {
    match fs::metadata(rt, path) {
        Ok(old) if old.is_file() && !may_be_stream(rt, &old) => Ok(Some(without_ids(&old))),
        Err(e) if e.kind() == ErrorKind::NotFound => Ok(None),
        _ => Err(StoreFault::Failed),
    }
}

// Returns the permissions of the file found, without its set-user-ID and set-group-ID bits.
fn without_ids(found: &Metadata) -> Permissions {
    Permissions::from_mode(found.permissions().mode() & KEPT_PERMISSIONS)
}

// Reports whether this file may be standard output or standard error. A closed stream matches no file; but if the
// system does not expose the streams at all (no /proc), any file may be one of them.
fn may_be_stream<H: Files>(rt: &H, found: &Metadata) -> bool {
    STREAMS.iter().any(|name| match fs::metadata(rt, *name) {
        Ok(stream) => stream.dev() == found.dev() && stream.ino() == found.ino(),
        Err(_) => fs::metadata(rt, OPEN_STREAMS).is_err(),
    })
}

// Reports whether there is a symbolic link at this path.
fn is_link<H: Files>(rt: &H, path: &str) -> Result<bool, StoreFault> {
    match fs::symlink_metadata(rt, path) {
        Ok(found) => Ok(found.is_symlink()),
        Err(e) if e.kind() == ErrorKind::NotFound => Ok(false),
        Err(_) => Err(StoreFault::Failed),
    }
}

// Returns the path of the file to which the links at this path lead.
fn link_target<H: Files>(rt: &H, alloc: Global, path: &str) -> Result<String, StoreFault> {
    match rt.canonicalize(alloc, path) {
        Ok(target) => Ok(target.into_string()),
        Err(e) if e.kind() == ErrorKind::OutOfMemory => Err(StoreFault::OutOfMemory),
        Err(_) => Err(StoreFault::Failed),
    }
}

// Returns the path to which the links at this path lead, if there is no file.
fn missing_target<H: Files>(rt: &H, alloc: Global, path: &str) -> Result<String, StoreFault> {
    let mut target = next_target(rt, alloc, path)?;
    for _ in 1..MOST_LINKS {
        if !is_link(rt, target.as_str())? {
            return Ok(target);
        }
        target = next_target(rt, alloc, target.as_str())?;
    }
    Err(StoreFault::Failed)
}

// Returns the path to which the link at this path points. A relative one begins at the folder of the link.
fn next_target<H: Files>(rt: &H, alloc: Global, link: &str) -> Result<String, StoreFault> {
    let target = match rt.read_link(alloc, link) {
        Ok(target) => target.into_string(),
        Err(e) if e.kind() == ErrorKind::OutOfMemory => return Err(StoreFault::OutOfMemory),
        Err(_) => return Err(StoreFault::Failed),
    };
    match link.rsplit_once('/') {
        Some((folder, _)) if !target.starts_with('/') => Ok(format!(in alloc;
            "{folder}/{target}"
        )?),
        _ => Ok(target),
    }
}

// Writes these bytes to a new file and moves it to this path, replacing any file there.
fn replace<H: Files>(
    rt: &H,
    alloc: Global,
    path: &str,
    permissions: Option<Permissions>,
    bytes: &[u8],
) -> Result<(), StoreFault> {
    let mode = if permissions.is_some() {
        PRIVATE_PERMISSIONS
    } else {
        USUAL_PERMISSIONS
    };
    let NewFile { name, file } = new_file_beside(rt, alloc, path, mode)?;
    let written = write_whole(file, permissions, bytes);
    put_in_place(rt, name.as_str(), path, written)
}

// Creates a new file with these permissions in the folder of this path.
fn new_file_beside<H: Files>(
    rt: &H,
    alloc: Global,
    path: &str,
    mode: u32,
) -> Result<NewFile<H::File>, StoreFault> {
    for number in 0..MOST_NAMES {
        let name = name_beside(alloc, path, number)?;
        match create_file(rt, name.as_str(), mode) {
            Ok(file) => return Ok(NewFile { name, file }),
            Err(e) if e.kind() == ErrorKind::AlreadyExists => {}
            Err(_) => return Err(StoreFault::Failed),
        }
    }
    Err(StoreFault::Failed)
}

fn create_file<H: Files>(rt: &H, name: &str, mode: u32) -> io::Result<H::File> {
    OpenOptions::new()
        .write(true)
        .create_new(true)
        .mode(mode)
        .open(rt, name)
}

// Returns the name of a new file in the folder of this path.
fn name_beside(alloc: Global, path: &str, number: u32) -> Result<String, AllocError> {
    match path.rsplit_once('/') {
        Some((folder, _)) => format!(in alloc; "{folder}/.units-save-{number}"),
        None => format!(in alloc; ".units-save-{number}"),
    }
}

// Writes the bytes to the disk, sets the permissions of the file to be replaced, and closes the file.
fn write_whole<F: Write + OpenFile + Drop>(
    mut file: F,
    permissions: Option<Permissions>,
    bytes: &[u8],
) -> io::Result<()> {
    file.write_all(bytes)?;
    if let Some(permissions) = permissions {
        file.set_permissions(permissions)?;
    }
    file.sync_all()
}

// Renames the file if it was written completely. Removes it if it was not, or if it cannot be renamed.
fn put_in_place<H: Files>(
    rt: &H,
    beside: &str,
    path: &str,
    written: io::Result<()>,
) -> Result<(), StoreFault> {
    let renamed = match written {
        Ok(()) => fs::rename(rt, beside, path),
        Err(e) => Err(e),
    };
    if renamed.is_ok() {
        return Ok(());
    }
    let _ = fs::remove_file(rt, beside);
    Err(StoreFault::Failed)
}
