//! Laws of the runs. Each is the contract of a function whose parameters are what it ranges over.
ghost use Rattle.std.specs.Prelude.{◌≡◌, ◌≤◌};
ghost use Rattle.cdb_form.specs.Format.{file_size};
ghost use Rattle.cdb_form.specs.Views.Pairs.{key_values};
ghost use Rattle.cdb_form.specs.declared.mode.Mode.TheVariants.{Add};
ghost use Rattle.cdb_read.specs.Laws.{brought_up};
ghost use Rattle.cdb_tool.specs.Laws.{MakerHoldsAll, Restores};
ghost use Rattle.cdb_tool.specs.Runs.Make.{mode_of};
ghost use Rattle.cdb_tool.specs.Runs.MakesSo.{RunsComeOf};

use crate::runs::options::RunOptions;
use cdb_command::MakeOptions;
use cdb_form::{Record, Width};

/// A dump made again is the same file: what `dump_run` writes of the file of some records, if
/// its size fits, is a text that `make_bytes` reads as these records and no others.
pub fn dump_and_make_restore<L: Width>(_records: &[Record])
    ensures { file_size L.WORD (key_values _records.now) ≤ L.GREATEST
        → Restores L.WORD L.GREATEST (key_values _records.now) }
{}

/// A run makes a database from a base, the records `_base`, and applies the difference of the base
/// and the new records to it. If the file fits, the run then holds records that answer each key as
/// the new ones do: `lookup_of_brought_up` of `cdb_read` says so of the file.
pub fn difference_amends_base<L: Width>(_options: MakeOptions, _base: &[Record], _new: &[Record])
    ensures { mode_of _options ≡ Add
        → file_size L.WORD (brought_up (key_values _base.now) (key_values _new.now)) ≤ _options.limit
        → MakerHoldsAll L.WORD _options (key_values _base.now) (key_values _new.now) }
{}

/// A run that makes a database leaves what one function of its options, its base and its inputs
/// says: the records of the file, the duplicates that are reported and the answer. Or the run
/// reports a refusal, and its lines are a prefix of the function's.
pub fn made_is_the_run<L: Width>(_options: RunOptions<'_>)
    ensures { RunsComeOf L.WORD L.GREATEST _options.entry }
{}
