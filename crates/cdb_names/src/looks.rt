// The system's answers about names and open files, which are compared by device and inode.
ghost use Rattle.std.specs.Prelude.{◌≡◌};
ghost use Rattle.std.specs.Path.{path_parent};
ghost use Rattle.cdb_names.specs.Replacing.{folder_from};

use cdb_store::RealFile;
use std::fs::{self, File, Metadata};
use std::io::{self, ErrorKind};
use std::os::unix::fs::MetadataExt;
use std::path::Path;
use std::rt::Files;

/// The system's answer about a name or an open file.
#[derive(Drop)]
pub(crate) enum Look {
    /// The metadata of the thing that is there.
    There(Metadata),
    /// Nothing is there.
    Missing,
    /// No answer: the call failed, with an error of this number.
    Unknown(Option<i32>),
}

/// True if something is so, or the number of the error of the call that failed.
pub(crate) type Said = Result<bool, Option<i32>>;

/// Returns the answer of a look. Only "no such file" means that nothing is there.
pub(crate) fn looked(answer: io::Result<Metadata>) -> Look {
    match answer {
        Ok(found) => Look::There(found),
        Err(error) if error.kind() == ErrorKind::NotFound => Look::Missing,
        Err(error) => Look::Unknown(error.raw_os_error()),
    }
}

/// Returns true if both looks show one file: the same device and inode.
pub(crate) fn is_one(one: &Look, other: &Look) -> Said {
    match (one, other) {
        (Look::There(one), Look::There(other)) => {
            Ok(one.dev() == other.dev() && one.ino() == other.ino())
        }
        (Look::Unknown(number), _) | (_, Look::Unknown(number)) => Err(*number),
        _ => Ok(false),
    }
}

/// Returns true if a file has a name, or the name is a link that leads to it.
pub(crate) fn is_one_of<R: Files<File = File>>(rt: &R, file: &Look, name: &str) -> Said {
    let found = looked(fs::symlink_metadata(rt, name));
    match is_one(file, &found) {
        Ok(false) if is_link(&found) => is_one(file, &looked(fs::metadata(rt, name))),
        said => said,
    }
}

/// Returns true if what was looked at is a link.
pub(crate) fn is_link(look: &Look) -> bool {
    matches!(look, Look::There(found) if found.is_symlink())
}

/// Returns true if an open file has a name, or the number of the error of the look that failed.
pub fn has_name<R: Files<File = File>>(
    rt: &R,
    name: &str,
    file: &RealFile,
) -> Result<bool, Option<i32>> {
    is_one(
        &looked(fs::symlink_metadata(rt, name)),
        &looked(file.metadata()),
    )
}

/// Returns the folder of a name.
pub(crate) fn folder_of(name: &str) -> &str
    ensures { result.now ≡ folder_from (path_parent name.now) }
{
    match Path::new(name).parent() {
        Some(folder) if !folder.as_str().is_empty() => folder.as_str(),
        _ => ".",
    }
}
