//! Laws of the format. Each is the contract of a function whose parameters are what it ranges over.
ghost use Rattle.std.specs.Prelude.{◌≡◌, ◌≤◌, All, false, length, true};
ghost use Rattle.cdb_form.specs.Format.{file_bytes, file_size, walk_of};
ghost use Rattle.cdb_form.specs.Laws.Parse.{IsParsed, IsWalk, WalksBack};
ghost use Rattle.cdb_form.specs.Laws.Text.{AmendsByPuts, ChangeFits, ChangesReadBack, LengthsFit, MapReadsBack, TextReadsBack};
ghost use Rattle.cdb_form.specs.Text.Parse.{Putting, SpellsChange, SpellsKey, listed, parse, parse_list};
ghost use Rattle.cdb_form.specs.Text.Map.{IsMapWord};
ghost use Rattle.cdb_form.specs.Text.Native.{Spells};
ghost use Rattle.cdb_form.specs.Views.Pairs.{changes_of, key_values};

use crate::item::Item;
use crate::record::Record;
use crate::width::Width;

/// The text of some records, in the shortest decimals, is read as these records and as no others,
/// whatever follows it.
pub fn text_reads_back<L: Width>(_records: &[Record], _rest: &[u8])
    ensures { All (LengthsFit L.GREATEST) (key_values _records.now) →
        TextReadsBack L.GREATEST (key_values _records.now) _rest.now }
{}

/// The amending text of some items, in the shortest decimals, is read as these items and as no
/// others, whatever follows it.
pub fn amending_text_reads_back<L: Width>(_items: &[Item], _rest: &[u8])
    ensures { All (ChangeFits L.GREATEST) (changes_of _items.now) →
        ChangesReadBack L.GREATEST (changes_of _items.now) _rest.now }
{}

/// A native text is an amending text of the same records, all of them put, and of no other items;
/// and an amending text that only puts is a native one.
pub fn native_text_amends_by_puts<L: Width>(_text: &[u8])
    ensures { AmendsByPuts L.GREATEST _text.now }
{}

/// For native, amending and list texts the parse function agrees with the grammar: on the items and
/// the bytes after the text, or on the whole items and the fault. The grammar allows no other
/// items, no other rest and no other fault.
pub fn text_is_parsed<L: Width>(_text: &[u8])
    ensures native { IsParsed Spells Putting L.GREATEST _text.now
        (parse false L.GREATEST _text.now) }
    ensures amending { IsParsed SpellsChange (λ x. x) L.GREATEST _text.now
        (parse true L.GREATEST _text.now) }
    ensures listed { IsParsed SpellsKey listed L.GREATEST _text.now
        (parse_list L.GREATEST _text.now) }
{}

/// The map text of some records that it can hold is read as these records.
pub fn map_reads_back(_records: &[Record])
    ensures { All IsMapWord (key_values _records.now) → MapReadsBack (key_values _records.now) }
{}

/// The file of some records has its size: the head, the records, and two slots for each record.
pub fn file_has_size<L: Width>(_records: &[Record])
    ensures { length (file_bytes L.WORD (key_values _records.now))
        ≡ file_size L.WORD (key_values _records.now) }
{}

/// A walk gives the longest list of records that lies in a file, inside both the record end and
/// the file.
pub fn walk_is_longest<L: Width>(_bytes: &[u8])
    ensures { IsWalk L.WORD _bytes.now (walk_of L.WORD _bytes.now) }
{}

/// The walk of the file of some records, if its size fits, gives these records and no damage.
pub fn walk_of_file<L: Width>(_records: &[Record])
    ensures { file_size L.WORD (key_values _records.now) ≤ L.GREATEST →
        WalksBack L.WORD (key_values _records.now) }
{}
