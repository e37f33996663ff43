// Look-ups of a key.
ghost use Rattle.std.specs.Prelude.{◌≡◌, ◌+◌, ◌<◌, ◌≤◌, pos, negsuc, length};
ghost use Rattle.cdb_form.specs.Format.{key_hash, head_size};
ghost use Rattle.cdb_read.specs.Lookup.{lookup_of, nothing_found};
ghost use Rattle.cdb_read.specs.Views.Search.{ProbeInside};
ghost use Rattle.cdb_read.specs.Memory.{probe_of, ahead, IsSearchWithin, SearchBegins, SearchGivesSpan, SearchGivesNone, Advances, HasFirst};
ghost use Rattle.cdb_c.specs.Answers.{Says, IsDamaged, span_of, search_of};

use cdb_form::Narrow;
use cdb_read::Span;
use cdb_read::memory::{Search, begin, find, next};

/// The place and the length of a value that was found.
#[repr(C)]
#[derive(Clone, Copy)]
pub struct Found {
    /// The place of the value's first byte.
    pub place: u32,
    /// The number of bytes that the value has.
    pub len: u32,
}

impl Found {
    /// Returns the place and the length of a span that ends before 4 GiB.
    fn of(span: Span) -> Found
        requires { span.place + span.len ≤ 4294967295 }
        ensures { span_of result ≡ span }
    {
        Found {
            place: span.place as u32,
            len: span.len as u32,
        }
    }
}

/// The state of the search of a key.
#[repr(C)]
#[derive(Clone, Copy)]
pub struct State {
    /// The hash of the key.
    pub hash: u64,
    /// The place of the table.
    pub table: u64,
    /// The number of slots that the table has.
    pub slots: u64,
    /// The number of the next slot.
    pub slot: u64,
    /// The number of slots that are left, the next one among them.
    pub left: u64,
}

impl State {
    /// Returns the state of a search.
    fn of(search: Search) -> State
        ensures { search_of result ≡ search }
    {
        State {
            hash: search.hash,
            table: search.table,
            slots: search.slots,
            slot: search.slot,
            left: search.left,
        }
    }

    /// Returns the search at a state.
    fn search(&self) -> Search
        ensures { result ≡ search_of self.now }
    {
        Search {
            hash: self.hash,
            table: self.table,
            slots: self.slots,
            slot: self.slot,
            left: self.left,
        }
    }
}

/// Finds the first value of a key in a file, which has at least a head and less than 4 GiB.
#[unsafe(no_mangle)]
pub extern "C" fn cdb_c_find(file: &[u8], key: &[u8], found: &mut Found) -> i32
    requires head { head_size 4 ≤ length file.now }
    requires narrow { length file.now ≤ 4294967295 }
    ensures { Says result
        (HasFirst file.now (lookup_of 4 file.now key.now) (span_of found.new))
        (lookup_of 4 file.now key.now ≡ nothing_found)
        (IsDamaged (lookup_of 4 file.now key.now)) }
{
    match find::<Narrow>(file, key) {
        Ok(Some(span)) => {
            *found = Found::of(span);
            1
        }
        Ok(None) => 0,
        Err(_) => -1,
    }
}

/// Begins the search of a key in a file, which has at least a head. 0 says that the search has
/// ended already.
#[unsafe(no_mangle)]
pub extern "C" fn cdb_c_begin(file: &[u8], key: &[u8], state: &mut State) -> i32
    requires { head_size 4 ≤ length file.now }
    ensures begins { Says result
        (SearchBegins 4 file.now key.now (search_of state.new))
        (SearchBegins 4 file.now key.now (search_of state.new))
        (IsDamaged (lookup_of 4 file.now key.now)) }
    ensures left { Says result (0 < state.new.left) (state.new.left ≡ 0)
        (state.new ≡ state.old) }
{
    match begin::<Narrow>(file, key) {
        Ok(search) => {
            *state = State::of(search);
            i32::from(search.left > 0)
        }
        Err(_) => -1,
    }
}

/// Finds the next value of a key, whose search in this file is at a state. After a damage the state
/// stays.
///
/// Any state is safe to pass: the value lies inside the file.
#[unsafe(no_mangle)]
pub extern "C" fn cdb_c_next(file: &[u8], key: &[u8], state: &mut State, found: &mut Found) -> i32
    requires { length file.now ≤ 4294967295 }
    ensures gives { state.old.hash ≡ key_hash key.now
        → IsSearchWithin 4 (length file.now) (search_of state.old)
        → Says result
        (SearchGivesSpan 4 file.now key.now (search_of state.old) (search_of state.new)
        (span_of found.new))
        (SearchGivesNone 4 file.now key.now (search_of state.old) (search_of state.new))
        (IsDamaged (ahead 4 file.now key.now (search_of state.old))) }
    ensures advances { Says result
        (Advances 4 (length file.now) (search_of state.old) (search_of state.new)
        (span_of found.new))
        (state.new.left ≡ 0)
        (state.new ≡ state.old) }
    ensures ended { state.old.left ≡ 0 → (result ≡ pos 0) × (state.new ≡ state.old) }
    ensures astray { 0 < state.old.left
        → (ProbeInside 4 (length file.now) (probe_of (search_of state.old)) → ⊥)
        → result ≡ negsuc 0 }
{
    let mut search = state.search();
    match next::<Narrow>(file, key, &mut search) {
        Ok(Some(span)) => {
            *state = State::of(search);
            *found = Found::of(span);
            1
        }
        Ok(None) => {
            *state = State::of(search);
            0
        }
        Err(_) => -1,
    }
}
