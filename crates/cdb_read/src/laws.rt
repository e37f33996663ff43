//! Laws of look-ups, of sound files and of differences. Each is the contract of a function whose
//! parameters are what it ranges over.
ghost use Rattle.std.specs.Prelude.{◌≡◌, ◌≤◌, [], None, false, true};
ghost use Rattle.cdb_form.specs.Format.{file_bytes, file_size};
ghost use Rattle.cdb_form.specs.Views.Pairs.{key_values};
ghost use Rattle.cdb_read.specs.Difference.{amended, difference, is_changed, FindsInOrder};
ghost use Rattle.cdb_read.specs.Laws.{FindsSearched, FindsValues, FindsWalked, SoundIsNoDamage, brought_up, EmptyIsSame, FindsAsIn};
ghost use Rattle.cdb_read.specs.Lookup.{lookup_of, search_of, values_of};
ghost use Rattle.cdb_read.specs.Sound.{IsSound};

use cdb_form::{Record, Width};

/// A look-up in the file of some records, if its size fits, finds the values of the key, in the
/// order of the records, and meets no damage.
pub fn lookup_of_file<L: Width>(_records: &[Record], _key: &[u8])
    ensures { file_size L.WORD (key_values _records.now) ≤ L.GREATEST →
        FindsValues L.WORD (key_values _records.now) _key.now }
{}

/// The file of some records, if its size fits, is sound.
pub fn file_is_sound<L: Width>(_records: &[Record])
    ensures { file_size L.WORD (key_values _records.now) ≤ L.GREATEST →
        IsSound L.WORD (file_bytes L.WORD (key_values _records.now)) }
{}

/// A look-up in a sound file, whatever program made it, finds the values that the key has in the
/// walk of the file, each as often as it is there, and meets no damage.
pub fn sound_lookup<L: Width>(_bytes: &[u8], _key: &[u8])
    ensures { IsSound L.WORD _bytes.now → FindsWalked L.WORD _bytes.now _key.now }
{}

/// A search as the author of the format describes it, and other readers do it, finds the values
/// that a look-up gives, in their order, if the look-up meets no damage. In a sound file it meets
/// none.
pub fn search_is_lookup<L: Width>(_bytes: &[u8], _key: &[u8])
    ensures undamaged { (lookup_of L.WORD _bytes.now _key.now).damage ≡ None
        → FindsSearched L.WORD _bytes.now _key.now }
    ensures sound { IsSound L.WORD _bytes.now → FindsSearched L.WORD _bytes.now _key.now }
{}

/// A search as the author of the format describes it, in the file of some records, if its size
/// fits, finds the values of the key, in the order of the records.
pub fn search_of_file<L: Width>(_records: &[Record], _key: &[u8])
    ensures { file_size L.WORD (key_values _records.now) ≤ L.GREATEST →
        search_of L.WORD (file_bytes L.WORD (key_values _records.now)) _key.now
        ≡ values_of _key.now (key_values _records.now) }
{}

/// A file is sound exactly if it has no first fault.
pub fn sound_is_no_damage<L: Width>(_bytes: &[u8])
    ensures { SoundIsNoDamage L.WORD _bytes.now }
{}

/// The look-ups in the file of some records, if its size fits, give each key its records in the
/// order of the walk.
pub fn file_finds_in_order<L: Width>(_records: &[Record])
    ensures { file_size L.WORD (key_values _records.now) ≤ L.GREATEST →
        FindsInOrder L.WORD (file_bytes L.WORD (key_values _records.now)) }
{}

/// The first of two lists, once their difference is applied to it, gives every key the values that
/// it has in the second.
pub fn difference_brings_up(_old: &[Record], _new: &[Record], _key: &[u8])
    ensures { values_of _key.now (brought_up (key_values _old.now) (key_values _new.now))
        ≡ values_of _key.now (key_values _new.now) }
{}

/// The difference of two lists is empty exactly if every key has the same values in both.
pub fn difference_is_empty(_old: &[Record], _new: &[Record])
    ensures { EmptyIsSame (key_values _old.now) (key_values _new.now) }
{}

/// The file of the first of two lists, once their difference is applied to it and if its size fits,
/// answers each key as the second list does.
pub fn lookup_of_brought_up<L: Width>(_old: &[Record], _new: &[Record], _key: &[u8])
    ensures { file_size L.WORD (brought_up (key_values _old.now) (key_values _new.now)) ≤ L.GREATEST →
        FindsAsIn L.WORD
        (file_bytes L.WORD (brought_up (key_values _old.now) (key_values _new.now)))
        _key.now (key_values _new.now) }
{}

/// The first of two lists, once their difference is applied to it, has no difference to the second.
pub fn brought_up_does_not_differ(_old: &[Record], _new: &[Record])
    ensures { difference (brought_up (key_values _old.now) (key_values _new.now))
        (key_values _new.now) ≡ [] }
{}

/// Applied to any records, the difference of two lists gives each key whose values differ its
/// values in the second, and leaves each other key its values. Applied again, it changes nothing.
pub fn difference_again(_old: &[Record], _new: &[Record], _other: &[Record], _key: &[u8])
    ensures changed { is_changed (key_values _new.now) (key_values _old.now) _key.now ≡ true
        → values_of _key.now (amended (key_values _other.now)
        (difference (key_values _old.now) (key_values _new.now)))
        ≡ values_of _key.now (key_values _new.now) }
    ensures others { is_changed (key_values _new.now) (key_values _old.now) _key.now ≡ false
        → values_of _key.now (amended (key_values _other.now)
        (difference (key_values _old.now) (key_values _new.now)))
        ≡ values_of _key.now (key_values _other.now) }
    ensures again { amended (amended (key_values _other.now)
        (difference (key_values _old.now) (key_values _new.now)))
        (difference (key_values _old.now) (key_values _new.now))
        ≡ amended (key_values _other.now)
        (difference (key_values _old.now) (key_values _new.now)) }
{}
