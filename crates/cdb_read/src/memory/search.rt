// The search of a key, whose state the caller holds.
ghost use Rattle.std.specs.Prelude.{◌≡◌, ◌+◌, ◌<◌, ◌≤◌, ℕ, List, length, IfOk, IfErr, MatchOption, Ok, Err, None};
ghost use Rattle.std.specs.Bool.{Decides};
ghost use Rattle.cdb_form.specs.Format.{key_hash, table_number, head_size};
ghost use Rattle.cdb_form.specs.declared.damage.Damage.TheVariants.{Table};
ghost use Rattle.cdb_read.specs.Lookup.{lookup_of, nothing_found, found_damaged};
ghost use Rattle.cdb_read.specs.Views.Search.{found_ahead, ProbeInside, IsSearchInside};
ghost use Rattle.cdb_read.specs.Memory.{probe_of, ahead, IsSearchWithin, SearchBegins, SearchGivesSpan, SearchGivesNone, Advances, HasFirst};

use crate::memory::meeting::meet;
use crate::{Met, Probe, Searching, Span, first_probe, lies_inside};
use cdb_form::{Damage, Pointer, Width, hash, pair_size, read_pointer, table_number};

/// The state of the search of a key: the next slot of a table, and the number of slots left.
#[derive(Clone, Copy, Debug, PartialEq, Eq)]
pub struct Search {
    /// The hash of the key.
    pub hash: u64,
    /// The place of the table, in bytes from the file's start.
    pub table: u64,
    /// The number of slots that the table has.
    pub slots: u64,
    /// The number of the next slot, counted from 0.
    pub slot: u64,
    /// The number of slots that are left, the next one among them. A search with none left has
    /// ended.
    pub left: u64,
}

impl Search {
    /// Returns the search that is at a probe.
    fn at(hash: u64, probe: Probe) -> Search
        ensures hash { result.hash ≡ hash }
        ensures probe { probe_of result ≡ probe }
    {
        Search {
            hash,
            table: probe.table.place,
            slots: probe.table.slots,
            slot: probe.slot,
            left: probe.left,
        }
    }

    /// Returns the probe at which the search is.
    fn probe(&self) -> Probe
        ensures { result ≡ probe_of self.now }
    {
        Probe {
            table: Pointer {
                place: self.table,
                slots: self.slots,
            },
            slot: self.slot,
            left: self.left,
        }
    }
}

/// Returns true if a probe's table and slot lie inside a file of `size` bytes.
fn is_inside<L: Width>(probe: Probe, size: u64) -> bool
    ensures { Decides result (ProbeInside L.WORD size probe) }
{
    lies_inside::<L>(probe.table, size)
        && probe.slot < probe.table.slots
        && probe.left <= probe.table.slots
}

/// Returns the state at which the search of a key with this hash begins.
fn first_of<L: Width>(file: &[u8], hash: u64) -> Searching
    requires { head_size L.WORD ≤ length file.now }
    ensures inside { IsSearchInside L.WORD (length file.now) result }
    ensures finds { (key : List ℕ) → hash ≡ key_hash key
        → found_ahead L.WORD file.now key result ≡ lookup_of L.WORD file.now key }
{
    let n = table_number(hash);
    let size = pair_size::<L>();
    let table = read_pointer::<L>(&file[size * n..size * n + size]);
    first_probe::<L>(table, hash, file.len() as u64)
}

/// Begins the search of a key in a file, which has at least a head. `next` goes on with it.
pub fn begin<L: Width>(file: &[u8], key: &[u8]) -> Result<Search, Damage>
    requires { head_size L.WORD ≤ length file.now }
    ensures begins { IfOk result (SearchBegins L.WORD file.now key.now) }
    ensures damaged { IfErr result (λ d.
        lookup_of L.WORD file.now key.now ≡ found_damaged d) }
{
    let hash = u64::from(hash(key));
    match first_of::<L>(file, hash) {
        Searching::AtEnd => Ok(Search {
            hash,
            table: 0,
            slots: 0,
            slot: 0,
            left: 0,
        }),
        Searching::At(probe) => Ok(Search::at(hash, probe)),
        Searching::NoTable(n) => Err(Damage::Table(n)),
        Searching::NoRecord(place) => Err(Damage::Record(place)),
    }
}

/// Returns the next value of a key, whose search in this file is at a state. After a damage the
/// state stays, so the next call answers the same.
///
/// A state that `begin` or `next` of this file and key didn't leave is safe to pass: its answer
/// lies inside the file, is none, or is a damage.
pub fn next<L: Width>(file: &[u8], key: &[u8], search: &mut Search) -> Result<Option<Span>, Damage>
    ensures gives { search.old.hash ≡ key_hash key.now → IfOk result (λ found. MatchOption found
        (SearchGivesNone L.WORD file.now key.now search.old search.new)
        (SearchGivesSpan L.WORD file.now key.now search.old search.new)) }
    ensures damaged { search.old.hash ≡ key_hash key.now
        → IsSearchWithin L.WORD (length file.now) search.old
        → IfErr result (λ d. ahead L.WORD file.now key.now search.old ≡ found_damaged d) }
    ensures advances { IfOk result (λ found. MatchOption found
        (search.new.left ≡ 0)
        (Advances L.WORD (length file.now) search.old search.new)) }
    ensures stays { IfErr result (λ d. search.new ≡ search.old) }
    ensures ended { search.old.left ≡ 0 → (result ≡ Ok None) × (search.new ≡ search.old) }
    ensures astray { 0 < search.old.left
        → (ProbeInside L.WORD (length file.now) (probe_of search.old) → ⊥)
        → result ≡ Err (Table (table_number search.old.hash)) }
{
    if search.left == 0 {
        return Ok(None);
    }
    let probe = search.probe();
    if !is_inside::<L>(probe, file.len() as u64) {
        return Err(Damage::Table(table_number(search.hash) as u64));
    }
    match meet::<L>(file, probe, key, search.hash) {
        Met::End => {
            search.left = 0;
            Ok(None)
        }
        Met::Value(span, then) => {
            *search = Search::at(search.hash, then);
            Ok(Some(span))
        }
        Met::Broken(place) => Err(Damage::Record(place)),
    }
}

/// Returns the first value of a key in a file, which has at least a head.
pub fn find<L: Width>(file: &[u8], key: &[u8]) -> Result<Option<Span>, Damage>
    requires { head_size L.WORD ≤ length file.now }
    ensures finds { IfOk result (λ found. MatchOption found
        (lookup_of L.WORD file.now key.now ≡ nothing_found)
        (HasFirst file.now (lookup_of L.WORD file.now key.now))) }
    ensures damaged { IfErr result (λ d.
        lookup_of L.WORD file.now key.now ≡ found_damaged d) }
{
    let hash = u64::from(hash(key));
    let probe = match first_of::<L>(file, hash) {
        Searching::AtEnd => return Ok(None),
        Searching::At(probe) => probe,
        Searching::NoTable(n) => return Err(Damage::Table(n)),
        Searching::NoRecord(place) => return Err(Damage::Record(place)),
    };
    match meet::<L>(file, probe, key, hash) {
        Met::End => Ok(None),
        Met::Value(span, _) => Ok(Some(span)),
        Met::Broken(place) => Err(Damage::Record(place)),
    }
}
