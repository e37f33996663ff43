// The progress of a reader of a text.
ghost use Rattle.std.specs.Prelude.{◌≡◌, IfOk, IfErr, MatchBool};
ghost use Rattle.cdb_form.specs.declared.text.going.Going.TheVariants.{On, AtEnd, Failed};

use crate::text::fault::TextFault;

/// The next step of a reader of a text.
#[derive(Clone, Copy)]
pub(crate) enum Going {
    /// The reader reads on.
    On,
    /// The text has ended: the reader reports the end.
    AtEnd,
    /// The reader reports this fault again.
    Failed(TextFault),
}

impl Going {
    /// Returns true if the reader reads on, and false at the end. It fails with the fault that the
    /// reader reports again.
    #[inline(always)]
    pub(crate) fn reads_on(self) -> Result<bool, TextFault>
        ensures ok { IfOk result (λ on. MatchBool on (self ≡ On) (self ≡ AtEnd)) }
        ensures err { IfErr result (λ fault. self ≡ Failed fault) }
    {
        match self {
            Going::On => Ok(true),
            Going::AtEnd => Ok(false),
            Going::Failed(fault) => Err(fault),
        }
    }
}
