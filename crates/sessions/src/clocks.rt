//! The timers of an end.

ghost use Rattle.std.specs.Prelude.{ℕ, ◌≡◌, ◌<◌, Option, option_map, IfOk, IfSome};
ghost use Rattle.schc_ids.specs.Limits.{IsTicks};
ghost use Rattle.schc_ids.specs.Params.{AreTicks};
ghost use Rattle.sessions.specs.Reception.{receiver_left, receiver_ticks, same_receiver_phase, is_remnant};
ghost use Rattle.sessions.specs.Session.{sender_left, sender_ticks, same_sender_phase};
ghost use Rattle.sessions.specs.Clocks.{left_of, no_clocks, key_of, clock_at, set_clock, all_ticked, cleared, due_in, with_clock, first_clock, without_clock};

use schc_ids::{Note, ReceiverPhase, SenderPhase, TimerTicks};
use std::alloc::{AllocError, Global};
use std::marker::Model;
use timers::TimerSet;

/// One of the timers of an end.
#[derive(Clone, Copy, Debug, PartialEq, Eq)]
pub enum Clock {
    /// That of the session that it sends.
    Sending,
    /// That of the receiver that answers.
    Answering,
    /// That of the receiver that doesn't.
    Silent,
}

/// Which of the timers are due.
#[derive(Clone, Copy, Debug, PartialEq, Eq)]
pub struct Due {
    pub sending: bool,
    pub answering: bool,
    pub silent: bool,
}

/// The timers of an end, in one set.
#[derive(Drop)]
pub struct Clocks {
    timers: TimerSet,
}

impl Model for Clocks {
    ghost use Rattle.std.specs.Prelude.{◌≡◌, length};
    ghost use Rattle.sessions.specs.Clocks.{ClocksData, clocks_of};

    ghost Value = { ClocksData };

    ghost view = { λ c. clocks_of c.timers };

    ghost invariant = { λ c. length c.timers ≡ 3 };
}

impl Clock {
    /// The key of the timer in the set.
    fn key(self) -> u32
        ensures exact { result ≡ key_of self }
        ensures below { result < 3 }
    {
        match self {
            Clock::Sending => 0,
            Clock::Answering => 1,
            Clock::Silent => 2,
        }
    }
}

impl Due {
    /// These and the timer.
    fn with(self, clock: Clock) -> Due
        ensures { result ≡ with_clock self clock }
    {
        let mut due = self;
        match clock {
            Clock::Sending => due.sending = true,
            Clock::Answering => due.answering = true,
            Clock::Silent => due.silent = true,
        }
        due
    }
}

/// The timer with the key in the set.
#[tactic(auto, unfolding(crate::specs::Clocks::clock_at))]
fn clock_at(key: u32) -> Clock
    ensures { result ≡ clock_at key }
{
    match key {
        0 => Clock::Sending,
        1 => Clock::Answering,
        _ => Clock::Silent,
    }
}

/// The timer with the key in the set, where there is a key.
fn clock_of(key: Option<u32>) -> Option<Clock>
    ensures { result ≡ option_map clock_at key }
{
    match key {
        Some(key) => Some(clock_at(key)),
        None => None,
    }
}

impl Clocks {
    /// No timer is armed. This alone takes memory.
    ///
    /// # Errors
    /// Want of memory.
    pub fn new(alloc: Global) -> Result<Clocks, AllocError>
        ensures { IfOk result (λ clocks. clocks ≡ no_clocks) }
    {
        Ok(Clocks {
            timers: TimerSet::new(alloc, 3)?,
        })
    }

    /// The timer has so many ticks left, or isn't armed.
    #[tactic(auto, using(crate::proofs::ClocksLemmas::set_clock_is))]
    pub fn set(&mut self, clock: Clock, left: Option<u32>)
        requires { IfSome left IsTicks }
        ensures { self.new ≡ set_clock clock left self.old }
    {
        match left {
            Some(ticks) => self.timers.arm(clock.key(), ticks),
            None => self.timers.cancel(clock.key()),
        }
    }

    /// The sender has come to stand somewhere, or stays: its timer begins anew where it comes.
    #[tactic(auto, unfolding(crate::specs::Session::sender_left))]
    pub fn sender_moved(&mut self, ticks: &TimerTicks, before: SenderPhase, after: SenderPhase)
        requires { AreTicks ticks.now }
        ensures { self.new ≡ record self.old { sending = sender_left ticks.now before after self.old.sending } }
    {
        if !same_sender_phase(before, after) {
            self.set(Clock::Sending, sender_ticks(ticks, after));
        }
    }

    /// A message was noted so, and the receiver has come to stand somewhere, or stays.
    #[tactic(auto, unfolding(crate::specs::Reception::receiver_left))]
    pub fn receiver_moved(
        &mut self,
        clock: Clock,
        ticks: &TimerTicks,
        before: ReceiverPhase,
        after: ReceiverPhase,
        note: Note,
    )
        requires { AreTicks ticks.now }
        ensures { self.new ≡ set_clock clock (receiver_left ticks.now before after note (left_of clock self.old)) self.old }
    {
        if !(is_remnant(note) && same_receiver_phase(before, after)) {
            self.set(clock, receiver_ticks(ticks, after));
        }
    }

    /// One tick passes. The timers that are due then are taken out.
    pub fn tick(&mut self) -> Due
        ensures due { result ≡ due_in (all_ticked self.old) }
        ensures after { self.new ≡ cleared (all_ticked self.old) }
    {
        self.pass();
        let mut due = Due {
            sending: false,
            answering: false,
            silent: false,
        };
        while let Some(clock) = self.due() {
            due = due.with(clock);
        }
        due
    }

    /// One tick passes.
    #[tactic(auto, using(crate::proofs::ClocksLemmas::tick_clocks))]
    fn pass(&mut self)
        ensures { self.new ≡ all_ticked self.old }
    {
        self.timers.tick();
    }

    /// Takes out the first timer that is due.
    fn due(&mut self) -> Option<Clock>
        ensures first { result ≡ first_clock self.old }
        ensures taken { self.new ≡ without_clock result self.old }
    {
        clock_of(self.timers.due())
    }
}

/// Which timer runs where the sender stands.
fn sender_ticks(ticks: &TimerTicks, phase: SenderPhase) -> Option<u32>
    requires { AreTicks ticks.now }
    ensures exact { result ≡ sender_ticks ticks.now phase }
    ensures in_range { IfSome result IsTicks }
{
    match phase {
        SenderPhase::Sending | SenderPhase::Closing => None,
        SenderPhase::Waiting => Some(ticks.retransmission),
        SenderPhase::Quiet => Some(ticks.quiet),
    }
}

/// Which timer runs where the receiver stands.
fn receiver_ticks(ticks: &TimerTicks, phase: ReceiverPhase) -> Option<u32>
    requires { AreTicks ticks.now }
    ensures exact { result ≡ receiver_ticks ticks.now phase }
    ensures in_range { IfSome result IsTicks }
{
    match phase {
        ReceiverPhase::Empty => None,
        ReceiverPhase::Gathering => Some(ticks.inactivity),
        ReceiverPhase::Finished => Some(ticks.linger),
    }
}

fn same_sender_phase(before: SenderPhase, after: SenderPhase) -> bool
    ensures { result ≡ same_sender_phase before after }
{
    match (before, after) {
        (SenderPhase::Sending, SenderPhase::Sending)
        | (SenderPhase::Waiting, SenderPhase::Waiting)
        | (SenderPhase::Closing, SenderPhase::Closing)
        | (SenderPhase::Quiet, SenderPhase::Quiet) => true,
        _ => false,
    }
}

fn same_receiver_phase(before: ReceiverPhase, after: ReceiverPhase) -> bool
    ensures { result ≡ same_receiver_phase before after }
{
    match (before, after) {
        (ReceiverPhase::Empty, ReceiverPhase::Empty)
        | (ReceiverPhase::Gathering, ReceiverPhase::Gathering)
        | (ReceiverPhase::Finished, ReceiverPhase::Finished) => true,
        _ => false,
    }
}

fn is_remnant(note: Note) -> bool
    ensures { result ≡ is_remnant note }
{
    match note {
        Note::Remnant => true,
        _ => false,
    }
}
