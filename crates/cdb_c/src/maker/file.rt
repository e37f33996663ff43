// A file that a program in C gives away.
ghost use Rattle.std.specs.Prelude.{◌≡◌};
ghost use Rattle.std.specs.declared.fs.File.{File};
ghost use Rattle.cdb_c.specs.Addresses.{file_coded, file_owns};

use crate::maker::parts::Parts;
use std::alloc::Global;
use std::fs::File;
use std::marker::Model;

/// The address of a file on the heap, which C gives away with what it points to.
///
/// C makes it of a descriptor: a block of `malloc` that begins with the descriptor's number, and
/// has more bytes than a file.
#[repr(C)]
#[derive(Drop)]
pub struct GivenFile {
    at: *mut u8,
    alloc: Global,
    pub ghost file: { File } by { file_coded },
}

impl Model for GivenFile {
    ghost also_owns = { λ g. file_owns g.alloc g.at g.file };
}

impl GivenFile {
    /// Returns the parts of its box.
    pub(crate) fn into_parts(self) -> Parts<File, Global>
        ensures { result.value ≡ self.file }
    {
        let GivenFile { at, alloc } = self;
        Parts {
            ptr: at as *mut File,
            alloc,
        }
    }

    /// Returns the file, and frees its box.
    pub(crate) fn into_file(self) -> File
        ensures { result ≡ self.file }
    {
        Box::into_inner(self.into_parts().into_box())
    }
}
