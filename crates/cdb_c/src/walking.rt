// A walk over the records.
ghost use Rattle.std.specs.Prelude.{◌≡◌, ◌<◌, ◌≤◌, pos, negsuc, length};
ghost use Rattle.cdb_form.specs.Format.{head_size, walk_of, damaged};
ghost use Rattle.cdb_form.specs.declared.damage.Damage.TheVariants.{Record};
ghost use Rattle.cdb_read.specs.Views.Walking.{behind, LiesAt};
ghost use Rattle.cdb_read.specs.Memory.{rest_of, WalkBegins, WalkGivesRecord};
ghost use Rattle.cdb_c.specs.Answers.{Says, IsWalkDamaged, pair_of, rest_at};

use cdb_form::Narrow;
use cdb_read::Pair;
use cdb_read::memory::{RecordArea, first_record, next_record};

/// The places of a record of a walk, of its key and of its value.
#[repr(C)]
#[derive(Clone, Copy)]
pub struct Placed {
    /// The place of the record's header.
    pub place: u32,
    /// The place of the record's key, and the number of bytes that the key has.
    pub key_place: u32,
    pub key_len: u32,
    /// The place of the record's value, and the number of bytes that the value has.
    pub value_place: u32,
    pub value_len: u32,
}

impl Placed {
    /// Returns the places of a pair that ends before 4 GiB.
    fn of(pair: Pair) -> Placed
        requires lies { LiesAt 4 pair.place pair }
        requires narrow { behind pair ≤ 4294967295 }
        ensures { pair_of result ≡ pair }
    {
        Placed {
            place: pair.place as u32,
            key_place: pair.key.place as u32,
            key_len: pair.key.len as u32,
            value_place: pair.value.place as u32,
            value_len: pair.value.len as u32,
        }
    }
}

/// Returns the place where the records of a file end, which has at least a head. 0 says that the
/// records would end before the head does. The first record follows the head, at 2048.
#[unsafe(no_mangle)]
pub extern "C" fn cdb_c_record_end(file: &[u8]) -> u64
    requires { head_size 4 ≤ length file.now }
    ensures begins { 0 < result → WalkBegins 4 file.now (rest_at (head_size 4) result) }
    ensures damaged { result ≡ 0 → IsWalkDamaged (walk_of 4 file.now) }
{
    match first_record::<Narrow>(file) {
        Ok(rest) => rest.end,
        Err(_) => 0,
    }
}

/// Finds the next record of a walk at a place of a file, whose records end at `end`, and moves the
/// place after the record. After a damage and at the record end the place stays.
///
/// Any place and any record end are safe to pass: the record lies inside the file. A record end
/// in the head is a damage.
#[unsafe(no_mangle)]
pub extern "C" fn cdb_c_next_record(
    file: &[u8],
    end: u64,
    place: &mut u32,
    found: &mut Placed,
) -> i32
    requires { length file.now ≤ 4294967295 }
    ensures gives { head_size 4 ≤ end → Says result
        (WalkGivesRecord 4 file.now (rest_at place.old end) (rest_at place.new end) (pair_of found.new))
        (end ≤ place.old)
        (rest_of 4 file.now (rest_at place.old end) ≡ damaged (Record place.old)) }
    ensures ended { head_size 4 ≤ end → end ≤ place.old → result ≡ pos 0 }
    ensures no_walk { end < head_size 4 → result ≡ negsuc 0 }
    ensures stays { Says result (place.new ≡ behind (pair_of found.new)) (place.new ≡ place.old)
        (place.new ≡ place.old) }
{
    if end < 2048 {
        return -1;
    }
    let mut rest = RecordArea {
        place: u64::from(*place),
        end,
    };
    match next_record::<Narrow>(file, &mut rest) {
        Ok(Some(pair)) => {
            *place = rest.place as u32;
            *found = Placed::of(pair);
            1
        }
        Ok(None) => 0,
        Err(_) => -1,
    }
}
