// The links of the system, which no database may replace.
use crate::looks::{Look, Said, folder_of, is_link, is_one, looked};
use std::alloc::Alloc;
use std::fs::{self, File};
use std::os::unix::fs::MetadataExt;
use std::path::PathBuf;
use std::rt::Files;

/// The number of links that the system follows from a name.
const LINKS: u32 = 40;

/// The system's number for "cannot allocate memory".
const ENOMEM: i32 = 12;

/// The system's number for "too many levels of symbolic links".
const ELOOP: i32 = 40;

/// Returns true if a name is a link that lies in `/dev` or in `/proc`, or leads to such a link, as
/// `/dev/stdout` does wherever it lies.
pub(crate) fn is_system_link<R: Files<File = File> + Alloc>(rt: &R, name: &str) -> Said {
    if link_at(rt, name)? {
        return leads_into_system(rt, name);
    }
    Ok(false)
}

/// Returns true if a link lies in `/dev` or in `/proc`, or leads to such a link. An allocation that
/// fails is no answer.
fn leads_into_system<R: Files<File = File> + Alloc>(rt: &R, name: &str) -> Said {
    let Ok(mut at) = PathBuf::from_str(rt.alloc(), name) else {
        return Err(Some(ENOMEM));
    };
    // After the last link that the system follows, the name is looked at one more time.
    for _ in 0..=LINKS {
        if !link_at(rt, at.as_path().as_str())? {
            return Ok(false);
        }
        if is_in_system(rt, folder_of(at.as_path().as_str()))? {
            return Ok(true);
        }
        let text = match fs::read_link(rt, at.as_path().as_str()) {
            Ok(text) => text,
            Err(error) => return Err(error.raw_os_error()),
        };
        at.pop();
        if at.push(text.as_path().as_str()).is_err() {
            return Err(Some(ENOMEM));
        }
    }
    Err(Some(ELOOP))
}

/// Returns true if a name is a link.
fn link_at<R: Files<File = File>>(rt: &R, name: &str) -> Said {
    match looked(fs::symlink_metadata(rt, name)) {
        Look::Unknown(number) => Err(number),
        found => Ok(is_link(&found)),
    }
}

/// Returns true if a folder is `/dev`, or lies in `/proc`.
fn is_in_system<R: Files<File = File>>(rt: &R, folder: &str) -> Said {
    let found = looked(fs::metadata(rt, folder));
    if is_one(&found, &looked(fs::metadata(rt, "/dev")))? {
        return Ok(true);
    }
    is_in_processes(rt, &found)
}

/// Returns true if a folder lies in the file system of `/proc`, if `/proc` has its own.
fn is_in_processes<R: Files<File = File>>(rt: &R, folder: &Look) -> Said {
    let processes = looked(fs::metadata(rt, "/proc"));
    let root = looked(fs::metadata(rt, "/"));
    match (folder, &processes, &root) {
        (Look::There(folder), Look::There(processes), Look::There(root)) => {
            Ok(folder.dev() == processes.dev() && processes.dev() != root.dev())
        }
        (_, Look::Missing, _) => Ok(false),
        (Look::Unknown(number), _, _) => Err(*number),
        (_, Look::Unknown(number), _) => Err(*number),
        (_, _, Look::Unknown(number)) => Err(*number),
        _ => Err(None),
    }
}
