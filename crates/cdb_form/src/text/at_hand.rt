// The bytes that a reader can give without a request.
ghost use Rattle.std.specs.Prelude.{◌≡◌, ◌≤◌, ℕ, List, [], length, take};
ghost use Rattle.cdb_form.specs.Views.Feed.{Consumes};

use crate::feeds::Feeds;

/// The bytes that a reader has at hand: its next ones, which need no request.
pub trait AtHand<R: Feeds> {
    /// The bytes at hand.
    ghost held: { R → List ℕ };

    /// Shows the bytes at hand.
    fn window(reader: &R) -> &[u8]
        ensures { result.now ≡ held reader.now };

    /// Takes the first `n` of the bytes at hand.
    fn take(reader: &mut R, n: usize)
        requires { n ≤ length (held reader.old) }
        ensures { Consumes (R.feed reader.old) (R.feed reader.new)
            (take n (held reader.old)) };
}

/// No byte is at hand: each is requested.
#[derive(Clone, Copy)]
pub struct NoneAtHand;

impl<R: Feeds> AtHand<R> for NoneAtHand {
    ghost held = { λ _. [] };

    #[inline(always)]
    fn window(_: &R) -> &[u8] {
        &[]
    }

    #[inline(always)]
    fn take(_: &mut R, _: usize) {}
}

/// Returns the bytes at hand, `most` at most.
#[inline(always)]
pub(crate) fn window_within<R: Feeds, A: AtHand<R>>(reader: &R, most: u64) -> &[u8]
    ensures { result.now ≡ take most (A.held reader.now) }
{
    let window = A::window(reader);
    let held = (window.len() as u64).min(most) as usize;
    &window[..held]
}
