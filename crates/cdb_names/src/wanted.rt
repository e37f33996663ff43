// The permission bits that a file is to have before it gets its name.
ghost use Rattle.std.specs.Prelude.{◌≡◌, ◌↔◌, IsTrue};
ghost use Rattle.cdb_names.specs.Wanted.{IsWanted, Suits, wanted_bits};

use crate::shown::Shown;

/// The permission bits that a file is to have before it gets its name.
#[derive(Clone, Copy, Debug, PartialEq, Eq)]
pub enum Wanted {
    /// The bits of this user's file that the file replaces: it gets the same.
    Old(u32),
    /// The file replaces none of this user: it gets no other bits than these, but may have fewer.
    New(u32),
}

impl Wanted {
    /// Returns the bits for a file of this user, where the regular file that has its name, if there
    /// is one, shows `held`: its bits if it is his too, or else `bits`. The bits of another user's
    /// file are that user's choice.
    pub fn of(held: Option<Shown>, user: u32, bits: u32) -> Wanted
        ensures { IsWanted held user bits result }
    {
        match held {
            Some(old) if old.user == user => Wanted::Old(old.bits),
            Some(_) | None => Wanted::New(bits),
        }
    }

    /// Returns the bits.
    pub fn bits(self) -> u32
        ensures { result ≡ wanted_bits self }
    {
        match self {
            Wanted::Old(bits) | Wanted::New(bits) => bits,
        }
    }

    /// Returns true if a file may get its name with these bits.
    pub fn suits(self, bits: u32) -> bool
        ensures { IsTrue result ↔ Suits self bits }
    {
        match self {
            Wanted::Old(old) => bits == old,
            Wanted::New(new) => bits & new == bits,
        }
    }
}
