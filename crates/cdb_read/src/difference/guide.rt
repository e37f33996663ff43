// The choice of the walk that goes on if the records of two walks differ.
ghost use Rattle.std.specs.Prelude.{◌≡◌, ◌≢◌, ◌+◌, ◌≤◌, IfErr, IfOk};
ghost use Rattle.cdb_read.specs.Views.Walking.{record_in};
ghost use Rattle.cdb_read.specs.Differing.{InBoth, BytesStop, ahead_of, bytes_between, IsInside, ReadBoth};
ghost use Rattle.cdb_read.specs.declared.difference.guide.Advance.TheVariants.{Same};

use crate::difference::same::is_same_span;
use crate::difference::stop::Stop;
use crate::{AT_HAND, Pair, ReadFault, Reader, Span};
use cdb_form::Width;
use cdb_store::Store;

/// The greatest distance, in bytes, at which a key may be at first if one walk alone is to go on to
/// it.
const REACH: u64 = 4096;

/// The number of equal records that pay for a look.
const PRICE: u64 = 4;

/// The credit at first, and at most: it pays for 1024 looks.
const CREDIT: u64 = 4096;

/// The walk that goes on.
#[derive(Clone, Copy)]
pub(crate) enum Advance {
    /// Both: they have the same record.
    Same,
    /// The own walk, past a record that the other one does not have here.
    Own,
    /// The other walk, past a record that the own one does not have here.
    Other,
    /// Both, past different records.
    Each,
}

/// Chooses the walk that goes on, so that both meet again soon. Nothing that is proved depends on
/// the choice.
#[derive(Clone, Copy)]
pub(crate) struct Guide {
    /// The own walk goes on alone until its value is at this place.
    own_to: u64,
    /// The other walk goes on alone until its value is at this place.
    other_to: u64,
    /// The greatest distance, in bytes, at which a key may be. It doubles at each look that finds
    /// none so near.
    reach: u64,
    /// The credit that equal records have paid for looks. It bounds the looks if the orders of the
    /// files differ much.
    credit: u64,
}

/// Returns the number of bytes from one place to another after it, or the greatest number if the
/// other is before it.
fn bytes_between(from: u64, to: u64) -> u64
    ensures { result ≡ bytes_between from to }
{
    if from <= to { to - from } else { u64::MAX }
}

/// Returns the number of bytes from a value to the first value of a key of the other database. It
/// is the greatest number if that value is before this one, if there is none, if the key is long,
/// or if the look-up meets a damage, as the pass that writes reports damages. A failed read is a
/// fault.
fn ahead<L: Width, S: Store, T: Store>(
    own: &mut Reader<S, L>,
    from: Span,
    other: &mut Reader<T, L>,
    key: Span,
) -> Result<u64, Stop>
    requires within { key.place + key.len ≤ T.size other.old.store }
    ensures reads { ReadBoth own.old own.new other.old other.new }
    ensures far { InBoth S.Store T.Store own.new.store other.new.store (λ b c.
        IfOk result (λ far. far ≡ ahead_of L.WORD b c from.place key)) }
    ensures fails { IfErr result (BytesStop S.Store T.Store own.old.store own.new.store
        other.old.store other.new.store) }
{
    if key.len > AT_HAND as u64 {
        return Ok(u64::MAX);
    }
    let n = key.len as usize;
    match other.read_ahead(key.place, n) {
        Ok(()) => {}
        Err(fault) => return Err(Stop::Other(fault)),
    }
    match own.find(other.at_hand(key.place, n)).next() {
        Ok(Some(value)) => Ok(bytes_between(from.place, value.place)),
        Err(ReadFault::Device) => Err(Stop::Own(ReadFault::Device)),
        Ok(None) | Err(_) => Ok(u64::MAX),
    }
}

impl Guide {
    /// Returns a guide at the start of two walks.
    pub(crate) fn new() -> Guide {
        Guide {
            own_to: 0,
            other_to: 0,
            reach: REACH,
            credit: CREDIT,
        }
    }

    /// Notes that both walks have the same record.
    fn meet(&mut self) {
        self.reach = REACH;
        self.credit = self.credit.saturating_add(1).min(CREDIT);
    }

    /// Looks for the key of each record in the other database, and chooses the walk that comes to
    /// the other's record sooner.
    fn look<L: Width, S: Store, T: Store>(
        &mut self,
        own: &mut Reader<S, L>,
        mine: Pair,
        other: &mut Reader<T, L>,
        theirs: Pair,
    ) -> Result<Advance, Stop>
        requires inside { IsInside (S.size own.old.store) mine }
        requires within { IsInside (T.size other.old.store) theirs }
        ensures reads { ReadBoth own.old own.new other.old other.new }
        ensures differ { IfOk result (λ advance. advance ≢ Same) }
        ensures fails { IfErr result (BytesStop S.Store T.Store own.old.store own.new.store
            other.old.store other.new.store) }
    {
        let own_ahead = ahead(own, mine.value, other, theirs.key)?;
        let other_ahead = match ahead(other, theirs.value, own, mine.key) {
            Ok(far) => far,
            Err(stop) => return Err(stop.flipped()),
        };
        if own_ahead.min(other_ahead) > self.reach {
            self.reach = self.reach.saturating_mul(2);
            return Ok(Advance::Each);
        }
        if own_ahead <= other_ahead {
            self.own_to = mine.value.place.saturating_add(own_ahead);
            return Ok(Advance::Own);
        }
        self.other_to = theirs.value.place.saturating_add(other_ahead);
        Ok(Advance::Other)
    }

    /// Chooses the walk that goes on from two records.
    #[inline(always)]
    pub(crate) fn advance<L: Width, S: Store, T: Store>(
        &mut self,
        own: &mut Reader<S, L>,
        mine: Pair,
        other: &mut Reader<T, L>,
        theirs: Pair,
    ) -> Result<Advance, Stop>
        requires inside { IsInside (S.size own.old.store) mine }
        requires within { IsInside (T.size other.old.store) theirs }
        ensures reads { ReadBoth own.old own.new other.old other.new }
        ensures same { InBoth S.Store T.Store own.new.store other.new.store (λ b c.
            IfOk result (λ advance. advance ≡ Same → record_in b mine ≡ record_in c theirs)) }
        ensures meets { InBoth S.Store T.Store own.new.store other.new.store (λ b c.
            IfOk result (λ advance. record_in b mine ≡ record_in c theirs → advance ≡ Same)) }
        ensures fails { IfErr result (BytesStop S.Store T.Store own.old.store own.new.store
            other.old.store other.new.store) }
    {
        let same_key = is_same_span(own, mine.key, other, theirs.key)?;
        if same_key {
            if is_same_span(own, mine.value, other, theirs.value)? {
                self.meet();
                return Ok(Advance::Same);
            }
        }
        if mine.value.place < self.own_to {
            return Ok(Advance::Own);
        }
        if theirs.value.place < self.other_to {
            return Ok(Advance::Other);
        }
        if same_key || self.credit < PRICE {
            return Ok(Advance::Each);
        }
        self.credit -= PRICE;
        self.look(own, mine, other, theirs)
    }
}
