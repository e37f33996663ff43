// The making calls.
ghost use Rattle.cdb_form.specs.Format.{record_of, whole_records};
ghost use Rattle.std.specs.Prelude.{◌≡◌, None, Err, IfOk, IfErr, negsuc, length};
ghost use Rattle.std.specs.Fd.{file_raw_fd};
ghost use Rattle.cdb_make.specs.Views.Maker.{Puts, FailsPutting, Follows, Removes, FailsRemoving, FailsFinishing, WritesNothing, FailsLooking, SameCounts, MakerKeepsAll};
ghost use Rattle.cdb_store.specs.declared.make_fault.MakeFault.TheVariants.{Broken};
ghost use Rattle.cdb_make.specs.Views.Appending.{AppendsAll, FailsAppending};
ghost use Rattle.cdb_c.specs.Calls.{kept_in, BetweenCalls, HasNoMaker, HasNewMaker, IsHandleFinished, FindsKey, HandleCounts, HandleWrote};
ghost use Rattle.cdb_c.specs.Codes.{put_code, done_code, found_code, removed_code, mode_of, Answers, appended_code};

use crate::codes::{appended_code, done_code, found_code, mode_of, put_code, removed_code};
use crate::maker::{
    GivenFile, Handle, append, count, exists, finish, number, put, release, remove, start, written,
};
use cdb_make::{MakeFault, Put};
use std::alloc::Global;

/// Puts a record by the number of a mode.
fn put_by(
    alloc: Global,
    handle: &mut Handle,
    mode: u32,
    key: &[u8],
    value: &[u8],
) -> Result<Put, MakeFault>
    ensures puts { IfOk result (λ p. BetweenCalls (kept_in handle.old) (kept_in handle.new) (λ m n.
        Puts m.maker n.maker (mode_of mode) (record_of key.now value.now) p)) }
    ensures fails { IfErr result (λ f. BetweenCalls (kept_in handle.old) (kept_in handle.new) (λ m n.
        FailsPutting m.maker n.maker (mode_of mode)
        (record_of key.now value.now) f)) }
    ensures follows { BetweenCalls (kept_in handle.old) (kept_in handle.new) (λ m n.
        Follows m.maker n.maker) }
    ensures no_maker { HasNoMaker (kept_in handle.old) → result ≡ Err Broken }
{
    put(alloc, handle, mode_of(mode), key, value)
}

/// Returns the number of the descriptor of a file, which stays open. The file's block is freed.
#[unsafe(no_mangle)]
pub extern "C" fn cdb_c_file_number(file: GivenFile) -> i32
    ensures { result ≡ file_raw_fd file.file }
{
    number(file)
}

/// Begins a database in an empty file, which stays open. The database that the handle held before
/// is freed.
#[unsafe(no_mangle)]
pub extern "C" fn cdb_c_make_start(alloc: Global, handle: &mut Handle, file: GivenFile) -> i32
    ensures { Answers done_code result (λ _. HasNewMaker (kept_in handle.new))
        (λ _. kept_in handle.new ≡ kept_in handle.old) }
{
    done_code(start(alloc, handle, file))
}

/// Puts a record by the number of a mode: 1 says that its key was there. -1: the handle has no
/// maker, or a broken one.
#[unsafe(no_mangle)]
pub extern "C" fn cdb_c_make_put(
    alloc: Global,
    handle: &mut Handle,
    mode: u32,
    key: &[u8],
    value: &[u8],
) -> i32
    ensures puts { Answers put_code result
        (λ p. BetweenCalls (kept_in handle.old) (kept_in handle.new) (λ m n.
        Puts m.maker n.maker (mode_of mode) (record_of key.now value.now) p))
        (λ f. BetweenCalls (kept_in handle.old) (kept_in handle.new) (λ m n.
        FailsPutting m.maker n.maker (mode_of mode)
        (record_of key.now value.now) f)) }
    ensures follows { BetweenCalls (kept_in handle.old) (kept_in handle.new) (λ m n.
        Follows m.maker n.maker) }
    ensures no_maker { HasNoMaker (kept_in handle.old) → result ≡ negsuc 0 }
{
    put_code(put_by(alloc, handle, mode, key, value))
}

/// Appends the whole records at the start of some bytes. -1: the handle has no maker, or a broken
/// one.
#[unsafe(no_mangle)]
pub extern "C" fn cdb_c_make_append(alloc: Global, handle: &mut Handle, bytes: &[u8]) -> i32
    ensures appends { Answers appended_code result
        (λ k. BetweenCalls (kept_in handle.old) (kept_in handle.new) (λ m n.
        AppendsAll m.maker n.maker (whole_records 4 (length bytes.now) bytes.now) k))
        (λ f. BetweenCalls (kept_in handle.old) (kept_in handle.new) (λ m n.
        FailsAppending m.maker n.maker (whole_records 4 (length bytes.now) bytes.now) f)) }
    ensures keeps { BetweenCalls (kept_in handle.old) (kept_in handle.new) (λ m n.
        MakerKeepsAll m.maker n.maker) }
    ensures follows { BetweenCalls (kept_in handle.old) (kept_in handle.new) (λ m n.
        Follows m.maker n.maker) }
    ensures no_maker { HasNoMaker (kept_in handle.old) → result ≡ negsuc 0 }
{
    appended_code(append(alloc, handle, bytes))
}

/// Returns the number of records that a maker holds. 0: the handle has none.
#[unsafe(no_mangle)]
pub extern "C" fn cdb_c_make_count(alloc: Global, handle: &mut Handle) -> u64
    ensures count { HandleCounts (kept_in handle.old) result }
    ensures kept { kept_in handle.new ≡ kept_in handle.old }
{
    count(alloc, handle)
}

/// Returns the number of bytes that the file of a maker has, by the calls that were made of it:
/// what the maker still collects is not there. 0: the handle has none.
#[unsafe(no_mangle)]
pub extern "C" fn cdb_c_make_written(alloc: Global, handle: &mut Handle) -> u64
    ensures written { HandleWrote (kept_in handle.old) result }
    ensures kept { kept_in handle.new ≡ kept_in handle.old }
{
    written(alloc, handle)
}

/// Returns 1 if some record has a key, else 0. -1: the handle has no maker, or a broken one.
#[unsafe(no_mangle)]
pub extern "C" fn cdb_c_make_exists(alloc: Global, handle: &mut Handle, key: &[u8]) -> i32
    ensures finds { Answers found_code result
        (λ there. BetweenCalls (kept_in handle.old) (kept_in handle.new) (FindsKey there key.now))
        (λ f. BetweenCalls (kept_in handle.old) (kept_in handle.new) (λ m n.
        FailsLooking m.maker n.maker f)) }
    ensures stays { Answers found_code result
        (λ _. BetweenCalls (kept_in handle.old) (kept_in handle.new) (λ m n.
        WritesNothing m.maker n.maker))
        (λ f. BetweenCalls (kept_in handle.old) (kept_in handle.new) (λ m n.
        FailsLooking m.maker n.maker f)) }
    ensures follows { BetweenCalls (kept_in handle.old) (kept_in handle.new) (λ m n.
        Follows m.maker n.maker) }
    ensures counts { BetweenCalls (kept_in handle.old) (kept_in handle.new) (λ m n.
        SameCounts m.maker n.maker) }
    ensures no_maker { HasNoMaker (kept_in handle.old) → result ≡ negsuc 0 }
{
    found_code(exists(alloc, handle, key))
}

/// Takes out every record of a key: 1 says that there were records. -1: the handle has no maker, or
/// a broken one.
#[unsafe(no_mangle)]
pub extern "C" fn cdb_c_make_remove(alloc: Global, handle: &mut Handle, key: &[u8]) -> i32
    ensures removes { Answers removed_code result
        (λ k. BetweenCalls (kept_in handle.old) (kept_in handle.new) (λ m n.
        Removes m.maker n.maker key.now k))
        (λ f. BetweenCalls (kept_in handle.old) (kept_in handle.new) (λ m n.
        FailsRemoving m.maker n.maker key.now f)) }
    ensures follows { BetweenCalls (kept_in handle.old) (kept_in handle.new) (λ m n.
        Follows m.maker n.maker) }
    ensures no_maker { HasNoMaker (kept_in handle.old) → result ≡ negsuc 0 }
{
    removed_code(remove(alloc, handle, key))
}

/// Finishes the file of the records. -1: the handle has no maker, or a
/// broken one.
#[unsafe(no_mangle)]
pub extern "C" fn cdb_c_make_finish(alloc: Global, handle: &mut Handle) -> i32
    ensures finishes { Answers done_code result
        (λ _. IsHandleFinished (kept_in handle.old) (kept_in handle.new))
        (λ f. BetweenCalls (kept_in handle.old) (kept_in handle.new) (λ m n.
        FailsFinishing m.maker n.maker f)) }
    ensures no_maker { HasNoMaker (kept_in handle.old) → result ≡ negsuc 0 }
{
    done_code(finish(alloc, handle))
}

/// Frees what a handle holds. The file stays open.
#[unsafe(no_mangle)]
pub extern "C" fn cdb_c_make_close(alloc: Global, handle: &mut Handle)
    ensures { kept_in handle.new ≡ None }
{
    release(alloc, handle)
}
