// The next whole records of a walk, as bytes.
ghost use Rattle.std.specs.Prelude.{◌≡◌, ◌≤◌, length, sum_by, IfOk, IfErr};
ghost use Rattle.cdb_form.specs.Format.{record_size, whole_records};
ghost use Rattle.cdb_store.specs.Reads.{OnlyReads};
ghost use Rattle.cdb_read.specs.Views.Reads.{StoreFails};
ghost use Rattle.cdb_read.specs.Views.Walking.{RecordsAhead};

use crate::fault::ReadFault;
use crate::pieces::read_part;
use crate::reader::Reader;
use crate::walking::state::RecordArea;
use cdb_form::{Width, record_len};
use cdb_store::Store;

/// Returns the number of bytes that the whole records at the start of some bytes have together.
fn whole_len<L: Width>(bytes: &[u8]) -> usize
    ensures within { result ≤ length bytes.now }
    ensures whole { result ≡ sum_by (record_size L.WORD)
        (whole_records L.WORD (length bytes.now) bytes.now) }
{
    let mut done = 0;
    while let Some(len) = record_len::<L>(&bytes[done..]) {
        done += len;
    }
    done
}

impl<S: Store, L: Width> Reader<S, L> {
    /// Reads the next whole records of a walk over the start of `into`, and returns the number of
    /// their bytes. The store is not read if no byte is left before the record end.
    pub(crate) fn read_records(
        &mut self,
        rest: RecordArea,
        into: &mut [u8],
    ) -> Result<usize, ReadFault>
        ensures ahead { IfOk result
            (RecordsAhead L.WORD rest into.new (S.image self.new.store)) }
        ensures head { self.new.head ≡ self.old.head }
        ensures reads { OnlyReads S.Store self.old.store self.new.store }
        ensures fails { IfErr result (StoreFails S.Store self.old.store self.new.store) }
    {
        let stored = self.store.len().saturating_sub(rest.place);
        let left = (rest.end - rest.place).min(stored);
        let n = left.min(into.len() as u64) as usize;
        if n == 0 {
            return Ok(0);
        }
        let part = &mut into[..n];
        read_part(&mut self.store, rest.place, part)?;
        Ok(whole_len::<L>(part))
    }
}
