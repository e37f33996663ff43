//! What a plain list of records makes of the calls of a script.
use super::makers::{finished, limit_of, maker_in};
use super::scripts::{Answer, Call, Step};
use cdb_form::Width;
use cdb_make::{MakeFault, Mode, Put};
use cdb_store::MemStore;
use std::alloc::Global;
use std::prelude::*;

/// The records that an append of a script has: keys and values.
pub(super) const RUN: [(&[u8], &[u8]); 2] = [(b"one", b"!"), (b"a", b"")];

/// What a script should come to.
#[derive(Drop)]
pub(super) struct Wanted {
    /// What its calls should answer.
    pub(super) answers: Vec<Answer>,
    /// The number of records that are left then.
    pub(super) count: u64,
    /// Their file, made from scratch.
    pub(super) file: Vec<u8>,
}

/// A record that was put.
#[derive(Clone, Copy)]
struct Row<'a> {
    key: &'a [u8],
    value: &'a [u8],
    /// It has not been taken out.
    stands: bool,
}

/// The records of a key that are left.
#[derive(Clone, Copy)]
struct Held {
    /// Their number.
    count: u64,
    /// How much shorter the file is without them.
    size: u64,
}

/// The records that were put, in their order, and the size of the file of those that are left.
#[derive(Drop)]
struct Model<'a> {
    rows: Vec<Row<'a>>,
    /// The number of bytes that a word has.
    word: u64,
    size: u64,
    /// What the size may be.
    limit: u64,
}

impl<'a> Model<'a> {
    /// Returns the number of bytes that a record takes in the file: a header, the key, the value,
    /// and two slots.
    fn cost(&self, key: &[u8], value: &[u8]) -> u64 {
        let bytes = (key.len() as u64).saturating_add(value.len() as u64);
        self.word.saturating_mul(6).saturating_add(bytes)
    }

    /// The records of a key that are left.
    fn of_key(&self, key: &[u8]) -> Held {
        let mut held = Held { count: 0, size: 0 };
        for row in self.rows.iter() {
            if row.stands && row.key == key {
                held.count = held.count.saturating_add(1);
                held.size = held.size.saturating_add(self.cost(row.key, row.value));
            }
        }
        held
    }

    /// Takes the records of a key out.
    fn take_out(&mut self, key: &[u8]) {
        let held = self.of_key(key);
        self.size = self.size.saturating_sub(held.size);
        for row in self.rows.iter_mut() {
            if row.key == key {
                row.stands = false;
            }
        }
    }

    /// Returns true if a record is within the limit, once so many bytes are free.
    fn fits(&self, key: &[u8], value: &[u8], free: u64) -> bool {
        let left = self.size.saturating_sub(free);
        left.saturating_add(self.cost(key, value)) <= self.limit
    }

    /// Adds a record.
    fn add(&mut self, key: &'a [u8], value: &'a [u8]) -> Result<(), MakeFault> {
        self.size = self.size.saturating_add(self.cost(key, value));
        let stands = true;
        self.rows.push(Row { key, value, stands })?;
        Ok(())
    }

    /// What a put should answer, if its record is within the limit.
    fn put(&mut self, mode: Mode, call: &Call<'a>) -> Result<Answer, MakeFault> {
        let held = self.of_key(call.key);
        let (put, free) = match mode {
            Mode::Insert if held.count > 0 => return Ok(Answer::Put(Put::Present)),
            Mode::Warn if held.count > 0 => (Put::AddedAgain, 0),
            Mode::Replace if held.count > 0 => (Put::Replaced(held.count), held.size),
            _ => (Put::Added, 0),
        };
        if !self.fits(call.key, call.value, free) {
            return Ok(Answer::Refused(MakeFault::TooBig));
        }
        if mode == Mode::Replace {
            self.take_out(call.key);
        }
        self.add(call.key, call.value)?;
        Ok(Answer::Put(put))
    }

    /// What an append of `RUN` should answer.
    fn append(&mut self) -> Result<Answer, MakeFault> {
        let mut size = 0usize;
        for (key, value) in RUN {
            if !self.fits(key, value, 0) {
                return Ok(Answer::Refused(MakeFault::TooBig));
            }
            let slots = self.word.saturating_mul(4);
            let bytes = self.cost(key, value).saturating_sub(slots);
            size = size.saturating_add(bytes as usize);
            self.add(key, value)?;
        }
        Ok(Answer::Appended(size))
    }

    /// What a call should answer.
    fn act(&mut self, call: &Call<'a>) -> Result<Answer, MakeFault> {
        match call.step {
            Step::Put(mode) => self.put(mode, call),
            Step::Append => self.append(),
            Step::Exists => Ok(Answer::There(self.of_key(call.key).count > 0)),
            Step::Remove => {
                let count = self.of_key(call.key).count;
                self.take_out(call.key);
                Ok(Answer::Removed(count))
            }
        }
    }

    /// Returns the number of records that are left.
    fn count(&self) -> u64 {
        self.rows.iter().filter(|row| row.stands).count() as u64
    }

    /// The file of the records that are left, made by adding them.
    fn from_scratch<L: Width>(&self, alloc: Global) -> Result<Vec<u8>, MakeFault> {
        let mut maker = maker_in::<MemStore, L>(alloc, MemStore::new(alloc))?;
        for row in self.rows.iter() {
            if row.stands {
                maker.put(Mode::Add, row.key, row.value)?;
            }
        }
        Ok(finished(maker)?.into_vec())
    }
}

/// What a script should come to, if the file may have so many bytes more than a head has.
pub(super) fn expected_within<L: Width>(
    alloc: Global,
    calls: &[Call],
    most: Option<u16>,
) -> Result<Wanted, MakeFault> {
    let wide = L::WORD == 8;
    let mut model = Model {
        rows: Vec::new(alloc),
        word: if wide { 8 } else { 4 },
        size: if wide { 4096 } else { 2048 },
        limit: limit_of::<L>(most),
    };
    let mut answers = Vec::new(alloc);
    for call in calls {
        answers.push(model.act(call)?)?;
    }
    let file = model.from_scratch::<L>(alloc)?;
    Ok(Wanted {
        answers,
        count: model.count(),
        file,
    })
}

/// What a script should come to.
pub(super) fn expected<L: Width>(alloc: Global, calls: &[Call]) -> Result<Wanted, MakeFault> {
    expected_within::<L>(alloc, calls, None)
}
