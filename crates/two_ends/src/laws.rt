//! The laws of whole runs: each is a function with no parameter and no code, whose contract is the
//! law.

ghost use Rattle.two_ends.specs.Safe.{Headline};
ghost use Rattle.two_ends.specs.Clean.{Clean};
ghost use Rattle.two_ends.specs.Lanes.{StepsOfAWorld};
ghost use Rattle.two_ends.specs.Offers.{Offers};
ghost use Rattle.two_ends.specs.Told.{LogsTell};

/// Over every list of events, each packet that a whole frame handed up is one that was handed down
/// earlier at the other end: the packet to which its label leads. Where no assembly over which a
/// check was made has the RCS of a session without being that session's packet, so is each packet
/// that was handed up. In fresh runs a session is reported delivered only after it was put together.
pub fn headline()
    ensures { Headline }
{}

/// For each key a step of the world is steps of the key's lane: none, one, or, for a tick of both
/// ends, two in a row, each possible where it comes.
pub fn steps()
    ensures { StepsOfAWorld }
{}

/// Where nothing is lost, a packet that is handed down at a clean start arrives, once: by one plain
/// round where it goes in one frame, else as a session, by at most one round more than it has tiles,
/// which is reported as sent in No-ACK and as delivered in the other modes.
pub fn clean()
    ensures { Clean }
{}

/// An end adopts each edition of the chain that it is offered, unless its number isn't above that of
/// the one that it knows: none ever diverges.
pub fn offers()
    ensures { Offers }
{}

/// What the logs gain by an event is what its line tells: the packet that was handed down, the one
/// that was handed up, the session that began with its number, and the reports, each of a session
/// that this end began and of how it ended.
pub fn logs_tell()
    ensures { LogsTell }
{}
