//! The right to enter a turn.
ghost use Rattle.std.specs.Prelude.{◌≡◌};

use crate::rule::TurnRule;
use crate::stage::Doing;
use atomic_table::Seat;

/// The right to enter one turn. It has no bytes, and may go to another thread. What it stands for in the rule stays there
/// if it is dropped: the turn cannot be closed any more.
pub struct Pass<R: TurnRule> {
    pub(crate) seat: Seat<Option<R::State>, Doing<R::State, R::View>>,
}

impl<R: TurnRule> Pass<R> {
    pub(crate) fn into_seat(self) -> Seat<Option<R::State>, Doing<R::State, R::View>>
        ensures { result ≡ self.seat }
    {
        let Self { seat } = self;
        seat
    }
}

impl<R: TurnRule> Drop for Pass<R> {
    fn drop(self) {
        let Self { seat: _ } = self;
    }
}
