//! A law of creates: the contract of a function without parameters.
ghost use Rattle.std.specs.Prelude.{ℕ, List, Option};
ghost use Rattle.cdb.specs.Contents.{AreAlike, ReadAlike};
ghost use Rattle.cdb.specs.Created.{create_of};
ghost use Rattle.cdb_command.specs.declared.options.MakeOptions.{MakeOptions};
ghost use Rattle.cdb_system.specs.Oracle.{Disk};

/// Two creates of the same words over the same base, inputs and standard input end alike, on
/// whatever disks, and make the same file: no byte of it depends on a time, a user or a machine.
pub fn creates_are_reproducible()
    ensures { (w g : ℕ) (one two : Disk) (input name : List ℕ) (base : Option (List ℕ))
        (inputs : List (List ℕ)) (temporary : Option (List ℕ)) (o : MakeOptions)
        → ReadAlike w one two base inputs
        → AreAlike name (create_of w g one input name base inputs temporary o)
        (create_of w g two input name base inputs temporary o) }
{}
