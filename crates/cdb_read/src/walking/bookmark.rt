// The state of a walk, kept while its reader is used for something else.
ghost use Rattle.std.specs.Prelude.{◌≡◌};

use crate::reader::Reader;
use crate::walking::records::Walk;
use crate::walking::state::Walking;
use cdb_form::Width;
use cdb_store::Store;

/// The state of a walk over the records of a database.
#[derive(Clone, Copy)]
pub struct Bookmark {
    /// The next step of the walk.
    pub(crate) walking: Walking,
}

impl<'a, S: Store, L: Width> Walk<'a, S, L> {
    /// Returns the state of the walk. `walk_on` goes on from there, so the reader can look keys up
    /// meanwhile.
    pub fn bookmark(&self) -> Bookmark
        ensures { result.walking ≡ self.now.walking }
    {
        Bookmark {
            walking: self.walking,
        }
    }
}

/// Returns a walk that goes on from a bookmark of the same database. Nothing is read yet.
pub fn walk_on<L: Width, S: Store>(reader: &mut Reader<S, L>, bookmark: Bookmark) -> Walk<'_, S, L>
    ensures same_reader { result.reader.ghost_name ≡ reader.entry.ghost_name }
    ensures reader { result.reader.now ≡ reader.old }
    ensures goes_on { result.walking ≡ bookmark.walking }
{
    Walk {
        reader,
        walking: bookmark.walking,
    }
}
