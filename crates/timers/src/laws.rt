//! What holds of every set of timers, as contracts see it.

ghost use Rattle.timers.specs.Laws.{DueAtItsTick, TakesTheLowest, NoneIsDue, WithoutOne};

/// A timer that is armed with `t` is due at the `t`-th tick after that, and not before.
pub fn due_at_its_tick()
    ensures { DueAtItsTick }
{}

/// The key that `due` takes out is due, and no lower one is.
pub fn takes_the_lowest()
    ensures { TakesTheLowest }
{}

/// Where `due` takes out none, no timer is due.
pub fn none_is_due()
    ensures { NoneIsDue }
{}

/// What is taken out or cancelled isn't due, and the other keys are as before.
pub fn without_one()
    ensures { WithoutOne }
{}
