//! What the byte strings meant.

use schc_ids::{Cause, Note};
use std::io;

/// How many byte strings were handed over, how many had each note, and how many sessions went
/// through afterwards.
#[derive(Clone, Copy)]
pub struct Tally {
    strings: u32,
    small: u32,
    stored: u32,
    repeat: u32,
    asked: u32,
    joined: u32,
    check_failed: u32,
    remnant: u32,
    acked: u32,
    peer_aborted: u32,
    overflow: u32,
    unknown_port: u32,
    unread: u32,
    no_packet: u32,
    sessions: u32,
    good_sessions: u32,
}

impl Tally {
    pub fn new() -> Tally {
        Tally {
            strings: 0,
            small: 0,
            stored: 0,
            repeat: 0,
            asked: 0,
            joined: 0,
            check_failed: 0,
            remnant: 0,
            acked: 0,
            peer_aborted: 0,
            overflow: 0,
            unknown_port: 0,
            unread: 0,
            no_packet: 0,
            sessions: 0,
            good_sessions: 0,
        }
    }

    /// A byte string is handed over.
    pub fn add_string(&mut self) {
        self.strings = self.strings.saturating_add(1);
    }

    /// And was answered with this note.
    pub fn add_note(&mut self, note: Note) {
        let count = self.count_of(note);
        *count = count.saturating_add(1);
    }

    fn count_of(&mut self, note: Note) -> &mut u32 {
        match note {
            Note::Small => &mut self.small,
            Note::Stored => &mut self.stored,
            Note::Repeat => &mut self.repeat,
            Note::Asked => &mut self.asked,
            Note::Joined => &mut self.joined,
            Note::CheckFailed => &mut self.check_failed,
            Note::Remnant => &mut self.remnant,
            Note::Acked => &mut self.acked,
            Note::PeerAborted => &mut self.peer_aborted,
            Note::Overflow => &mut self.overflow,
            Note::Refused(Cause::UnknownPort) => &mut self.unknown_port,
            Note::Refused(Cause::Wire(_)) => &mut self.unread,
            Note::Refused(Cause::Unpack(_)) => &mut self.no_packet,
        }
    }

    /// A session was run, and went through or not.
    pub fn add_session(&mut self, good: bool) {
        self.sessions = self.sessions.saturating_add(1);
        self.good_sessions = self.good_sessions.saturating_add(u32::from(good));
    }

    /// How many notes there were.
    fn notes(&self) -> u32 {
        [
            self.small,
            self.stored,
            self.repeat,
            self.asked,
            self.joined,
            self.check_failed,
            self.remnant,
            self.acked,
            self.peer_aborted,
            self.overflow,
            self.unknown_port,
            self.unread,
            self.no_packet,
        ]
        .iter()
        .fold(0u32, |sum, count| sum.saturating_add(*count))
    }

    /// Whether each byte string was answered, and each session went through.
    pub fn is_good(&self) -> bool {
        self.notes() == self.strings && self.good_sessions == self.sessions
    }

    /// Prints the numbers.
    pub fn print(&self, rt: &HostRuntime) -> io::Result<()> {
        println!(rt; "{} byte strings: {} answered", self.strings, self.notes())?;
        println!(rt; "whole: small {}", self.small)?;
        println!(rt;
            "fragments: stored {}, repeat {}, asked {}, joined {}, check-failed {}, overflow {}",
            self.stored, self.repeat, self.asked, self.joined, self.check_failed, self.overflow
        )?;
        println!(rt;
            "answers: acked {}, peer-aborted {}, remnant {}",
            self.acked, self.peer_aborted, self.remnant
        )?;
        println!(rt;
            "refused: port {}, form {}, packet {}",
            self.unknown_port, self.unread, self.no_packet
        )?;
        println!(rt;
            "good sessions: {} of {}",
            self.good_sessions, self.sessions
        )
    }
}
