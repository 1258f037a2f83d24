//! The sessions of an end.

ghost use Rattle.std.specs.Prelude.{ℕ, ◌≡◌, ◌≤◌, ◌<◌, Bool, true, length, Some, None, IfOk, IfErr, IfNone, IfSome, IsSome, OnOk, OnErr};
ghost use Rattle.schc_bits.specs.Bits.{octets};
ghost use Rattle.schc_ids.specs.Ends.{other_role};
ghost use Rattle.schc_ids.specs.Limits.{min_session_bits, max_session_bits};
ghost use Rattle.schc_ids.specs.Params.{IsParams};
ghost use Rattle.aoe_sender.specs.Steps.{IsAnswer};
ghost use Rattle.event_data.specs.Outcomes.{IsNote};
ghost use Rattle.frag_wire.specs.Layouts.{payload_in};
ghost use Rattle.frag_wire.specs.Spells.{reading_in};
ghost use Rattle.lorawan_profile.specs.Ports.{sending_of};
ghost use Rattle.reassembly.specs.Joining.{reassembly_bits};
ghost use Rattle.sessions.specs.Data.{new_sessions, in_key, out_key, port_key};
ghost use Rattle.sessions.specs.Holds.{ComesBy, IsFragment};
ghost use Rattle.sessions.specs.Keys.{found};
ghost use Rattle.sessions.specs.Steps.{Choice, answers_from, busy_in, may_begin, sessions_armed, armed, begin_step, next_step, next_from, message_choice, take_step, fragment_read, fragment_taken, answer_read, answer_taken, preview_of, read_previewed, fragment_previewed, tick_step, abort_step};

use crate::clocks::{Clock, Clocks};
use crate::moves::{
    Running, fire_if, fire_session, give_message, give_next, give_up, hear_message, take_message,
};
use crate::out::{SessionOut, answer_out, heard_note, heard_report};
use crate::receivers::Receiver;
use crate::senders::Sender;
use event_data::EmitKind;
use frag_wire::{Message, read};
use lorawan_profile::{PortMeaning, meaning, sending};
use schc_bits::Bits;
use schc_ids::{Cause, EndParams, FragParams, Note, Report, Role, SenderPhase, Side};
use std::alloc::{AllocError, Global};
use std::marker::Model;

/// What an end sends and receives in fragments: at most one session that it sends, and a receiver for
/// each port by which fragments come. Contracts see both as lists by port, each with the ticks that
/// are left of its timer, and the number of the next session.
#[derive(Drop)]
pub struct Sessions {
    role: Role,
    params: EndParams,
    running: Option<Running>,
    answering: Receiver,
    silent: Receiver,
    next: u64,
    clocks: Clocks,
}

impl Model for Sessions {
    ghost use Rattle.sessions.specs.Data.{SessionsData, seen};
    ghost use Rattle.sessions.specs.Holds.{IsTable};

    ghost Value = { SessionsData };

    ghost view = { λ s. seen s.role s.params s.running s.answering s.silent s.next s.clocks };

    ghost invariant = { λ s. IsTable s.role s.params s.running s.answering s.silent s.clocks };
}

impl Sessions {
    /// No session has begun, and each receiver keeps nothing.
    ///
    /// # Errors
    /// Want of memory.
    #[tactic(auto, unfolding(crate::specs::Keys::entry))]
    pub fn new(alloc: Global, role: Role, params: &EndParams) -> Result<Sessions, AllocError>
        requires { IsParams params.now }
        ensures { IfOk result (λ sessions. sessions ≡ new_sessions role params.now) }
    {
        let (_, answered) = sending(role.other(), true);
        let (_, unanswered) = sending(role.other(), false);
        Ok(Sessions {
            role,
            params: *params,
            running: None,
            answering: Receiver::new(alloc, answered.mode)?,
            silent: Receiver::new(alloc, unanswered.mode)?,
            next: 1,
            clocks: Clocks::new(alloc)?,
        })
    }

    /// A session begins with these bits, and gives its first message (RFC 8724 section 8.4). It has
    /// the next number.
    ///
    /// # Errors
    /// Want of memory: the bits come back, and nothing has changed.
    pub fn begin(&mut self, alloc: Global, bits: Bits) -> Result<SessionOut, Bits>
        requires least { min_session_bits ≤ length bits }
        requires most { length bits ≤ max_session_bits }
        requires free { may_begin self.old ≡ true }
        ensures begun { IfOk result (λ out. begin_step bits self.old ≡ (self.new, Some out)) }
        ensures back { IfErr result (λ given. given ≡ bits) }
        ensures unchanged { OnErr result (self.new ≡ self.old) }
        ensures room { IfOk result (λ out. length out.frame.bytes ≤ self.old.params.mtu) }
        ensures port { IfOk result (λ out. out.frame.port < 256) }
        ensures role { self.new.role ≡ self.old.role }
        ensures params { self.new.params ≡ self.old.params }
    {
        let number = self.next;
        let (port, params) = sending(self.role, self.params.acked);
        let sender = Sender::begin(alloc, params, self.params.mtu, self.params.last, bits)?;
        let mut running = Running { number, sender };
        let given = match give_message(
            alloc,
            &mut running,
            &mut self.clocks,
            &self.params.ticks,
            port,
            EmitKind::Begins(number),
        ) {
            Ok(given) => given,
            Err(_) => return Err(running.sender.into_bits()),
        };
        let Some(out) = given else {
            return Err(running.sender.into_bits());
        };
        self.next = number.saturating_add(1);
        self.running = Some(running);
        Ok(out)
    }

    /// What is given next: the answer of the receiver that answers, of the one that doesn't, or the
    /// message of the session; none exactly where nothing is due.
    ///
    /// # Errors
    /// Want of memory; nothing has changed then.
    pub fn next(&mut self, alloc: Global) -> Result<Option<SessionOut>, AllocError>
        ensures step { IfOk result (λ out. next_step self.old ≡ (self.new, out)) }
        ensures unchanged { OnErr result (self.new ≡ self.old) }
        ensures room { IfOk result (λ out. IfSome out (λ out. length out.frame.bytes ≤ self.old.params.mtu)) }
        ensures port { IfOk result (λ out. IfSome out (λ out. out.frame.port < 256)) }
        ensures role { self.new.role ≡ self.old.role }
        ensures params { self.new.params ≡ self.old.params }
    {
        match self.answer(alloc)? {
            Some(out) => Ok(Some(out)),
            None => self.send(alloc),
        }
    }

    /// The bits that are joined, exactly where taking the frame makes a check that passes.
    ///
    /// # Errors
    /// Want of memory, where there are bits to give.
    pub fn preview(&self, alloc: Global, port: u8, bytes: &[u8]) -> Result<Option<Bits>, AllocError>
        ensures joined { IfOk result (λ joined. joined ≡ preview_of port bytes.now self.now) }
        ensures memory { OnErr result (IsSome (preview_of port bytes.now self.now)) }
        ensures room { IfOk result (λ joined. IfSome joined (λ bits. length bits ≤ reassembly_bits)) }
    {
        let PortMeaning::Fragments(params) = meaning(self.role, port) else {
            return Ok(None);
        };
        self.preview_fragment(alloc, port, &params, bytes)
    }

    /// What the frame means, and how the session ends with it, where it does. It takes no memory.
    pub fn take(&mut self, port: u8, bytes: &[u8]) -> (Note, Option<Report>)
        ensures step { take_step port bytes.now self.old ≡ (self.new, result) }
        ensures note { IsNote result.0 }
        ensures role { self.new.role ≡ self.old.role }
        ensures params { self.new.params ≡ self.old.params }
    {
        match meaning(self.role, port) {
            PortMeaning::Fragments(params) => (self.take_fragment(port, &params, bytes), None),
            PortMeaning::Answers(params) => self.take_answer(&params, bytes),
            PortMeaning::Whole | PortMeaning::Unknown => {
                (Note::Refused(Cause::UnknownPort), None)
            }
        }
    }

    /// One tick passes: timers that are due then do what they are for. How the session ends, where it
    /// does. It takes no memory.
    pub fn tick(&mut self) -> Option<Report>
        ensures step { tick_step self.old ≡ (self.new, result) }
        ensures role { self.new.role ≡ self.old.role }
        ensures params { self.new.params ≡ self.old.params }
    {
        let due = self.clocks.tick();
        fire_if(&mut self.answering, due.answering);
        fire_if(&mut self.silent, due.silent);
        if due.sending {
            fire_session(&mut self.running, &mut self.clocks, &self.params.ticks)
        } else {
            None
        }
    }

    /// The session is given up, where one is under way: how it ends. It takes no memory.
    pub fn abort(&mut self) -> Option<Report>
        ensures step { abort_step self.old ≡ (self.new, result) }
        ensures role { self.new.role ≡ self.old.role }
        ensures params { self.new.params ≡ self.old.params }
    {
        let Some(running) = &mut self.running else {
            return None;
        };
        let heard = give_up(running, &mut self.clocks, &self.params.ticks);
        heard_report(running.number, heard)
    }

    /// True exactly where a session is sending, waiting or closing. It takes no memory.
    #[tactic(auto, unfolding(crate::specs::Steps::busy_in, crate::specs::Keys::entry))]
    pub fn busy(&self) -> bool
        ensures { result ≡ busy_in self.now.senders }
    {
        match &self.running {
            Some(running) => match running.sender.phase() {
                SenderPhase::Quiet => false,
                SenderPhase::Sending | SenderPhase::Waiting | SenderPhase::Closing => true,
            },
            None => false,
        }
    }

    /// True exactly where no session is sending, waiting, closing or quiet, so that one may begin. It
    /// takes no memory.
    #[tactic(auto, using(crate::proofs::KeyLemmas::found_own), unfolding(crate::specs::Steps::may_begin, crate::specs::Steps::may_begin_in))]
    pub fn may_begin(&self) -> bool
        ensures { result ≡ may_begin self.now }
    {
        self.running.is_none()
    }

    /// True exactly where some timer is armed. It takes no memory.
    #[tactic(auto, unfolding(crate::specs::Steps::armed, crate::specs::Steps::receptions_armed))]
    pub fn armed(&self) -> bool
        ensures { result ≡ armed self.now }
    {
        self.session_timed() || self.answering.is_timed() || self.silent.is_timed()
    }
}

impl Sessions {
    /// The answer that is due, of the receiver that answers or else of the one that doesn't.
    fn answer(&mut self, alloc: Global) -> Result<Option<SessionOut>, AllocError>
        ensures step { IfOk result (λ out. IfSome out (λ out. (rest : Choice) → next_from self.old (answers_from self.old.receivers rest) ≡ (self.new, Some out))) }
        ensures none { IfOk result (λ out. IfNone out ((rest : Choice) → answers_from self.old.receivers rest ≡ rest)) }
        ensures same { IfOk result (λ out. IfNone out (self.new ≡ self.old)) }
        ensures unchanged { OnErr result (self.new ≡ self.old) }
        ensures room { IfOk result (λ out. IfSome out (λ out. length out.frame.bytes ≤ 9)) }
        ensures port { IfOk result (λ out. IfSome out (λ out. out.frame.port < 256)) }
        ensures mtu { 15 ≤ self.old.params.mtu }
        ensures role { self.new.role ≡ self.old.role }
        ensures params { self.new.params ≡ self.old.params }
    {
        if let Some(bytes) = self.answering.answer(alloc)? {
            return Ok(Some(answer_out(self.role, true, bytes)));
        }
        if let Some(bytes) = self.silent.answer(alloc)? {
            return Ok(Some(answer_out(self.role, false, bytes)));
        }
        Ok(None)
    }

    /// The message of the session that is due.
    fn send(&mut self, alloc: Global) -> Result<Option<SessionOut>, AllocError>
        ensures step { IfOk result (λ out. next_from self.old (message_choice self.old.senders) ≡ (self.new, out)) }
        ensures unchanged { OnErr result (self.new ≡ self.old) }
        ensures room { IfOk result (λ out. IfSome out (λ out. length out.frame.bytes ≤ self.old.params.mtu)) }
        ensures port { IfOk result (λ out. IfSome out (λ out. out.frame.port < 256)) }
        ensures role { self.new.role ≡ self.old.role }
        ensures params { self.new.params ≡ self.old.params }
    {
        let (port, _) = sending(self.role, self.params.acked);
        give_next(
            alloc,
            &mut self.running,
            &mut self.clocks,
            &self.params.ticks,
            port,
        )
    }

    /// Whether what comes by the port, by which the other end sends, is answered.
    fn is_answered(&self, port: u8) -> bool
        ensures { (acked : Bool) → (sending_of (other_role self.now.role) acked).0 ≡ port → result ≡ acked }
    {
        let (answered, _) = sending(self.role.other(), true);
        port == answered
    }

    /// What a frame means that comes by a port by which the other end sends, with these parameters.
    fn take_fragment(&mut self, port: u8, params: &FragParams, bytes: &[u8]) -> Note
        requires { ComesBy self.old.role port params.now }
        ensures step { fragment_read self.old (port_key port) bytes.now (reading_in params.now.mode Side.Fragments bytes.now) ≡ (self.new, result) }
        ensures role { self.new.role ≡ self.old.role }
        ensures params { self.new.params ≡ self.old.params }
    {
        match read(params, Side::Fragments, bytes) {
            Ok(message) => self.receive(self.is_answered(port), &message, bytes),
            Err(fault) => Note::Refused(Cause::Wire(fault)),
        }
    }

    /// What a fragment means, with answers or without.
    fn receive(&mut self, acked: bool, message: &Message, bytes: &[u8]) -> Note
        requires { IsFragment self.old.role acked message.now bytes.now }
        ensures step { fragment_taken self.old (in_key self.old.role acked) message.now (payload_in message.now (octets bytes.now)) (found (in_key self.old.role acked) self.old.receivers) ≡ (self.new, result) }
        ensures role { self.new.role ≡ self.old.role }
        ensures params { self.new.params ≡ self.old.params }
    {
        let ticks = &self.params.ticks;
        let clocks = &mut self.clocks;
        if acked {
            take_message(
                &mut self.answering,
                clocks,
                Clock::Answering,
                ticks,
                message,
                bytes,
            )
        } else {
            take_message(
                &mut self.silent,
                clocks,
                Clock::Silent,
                ticks,
                message,
                bytes,
            )
        }
    }

    /// What a frame means that comes by a port by which this end's fragments are answered, with these
    /// parameters.
    fn take_answer(&mut self, params: &FragParams, bytes: &[u8]) -> (Note, Option<Report>)
        requires { (sending_of self.old.role true).1 ≡ params.now }
        ensures step { answer_read self.old (out_key self.old.role true) (reading_in params.now.mode Side.Answers bytes.now) ≡ (self.new, result) }
        ensures role { self.new.role ≡ self.old.role }
        ensures params { self.new.params ≡ self.old.params }
    {
        match read(params, Side::Answers, bytes) {
            Ok(message) => self.hear(&message),
            Err(fault) => (Note::Refused(Cause::Wire(fault)), None),
        }
    }

    /// What an answer means.
    fn hear(&mut self, message: &Message) -> (Note, Option<Report>)
        requires { IsAnswer (sending_of self.old.role true).1 message.now }
        ensures step { answer_taken self.old (out_key self.old.role true) message.now (found (out_key self.old.role true) self.old.senders) ≡ (self.new, result) }
        ensures role { self.new.role ≡ self.old.role }
        ensures params { self.new.params ≡ self.old.params }
    {
        if !self.params.acked {
            return (Note::Remnant, None);
        }
        let Some(running) = &mut self.running else {
            return (Note::Remnant, None);
        };
        let heard = hear_message(running, &mut self.clocks, &self.params.ticks, message);
        (heard_note(heard), heard_report(running.number, heard))
    }

    /// The bits that are joined by a frame that comes by a port by which the other end sends, with
    /// these parameters.
    fn preview_fragment(
        &self,
        alloc: Global,
        port: u8,
        params: &FragParams,
        bytes: &[u8],
    ) -> Result<Option<Bits>, AllocError>
        requires { ComesBy self.now.role port params.now }
        ensures joined { IfOk result (λ joined. joined ≡ read_previewed self.now (port_key port) bytes.now (reading_in params.now.mode Side.Fragments bytes.now)) }
        ensures memory { OnErr result (IsSome (read_previewed self.now (port_key port) bytes.now (reading_in params.now.mode Side.Fragments bytes.now))) }
        ensures room { IfOk result (λ joined. IfSome joined (λ bits. length bits ≤ reassembly_bits)) }
    {
        match read(params, Side::Fragments, bytes) {
            Ok(message) => self.preview_message(alloc, self.is_answered(port), &message, bytes),
            Err(_) => Ok(None),
        }
    }

    /// The bits that a fragment joins, with answers or without.
    fn preview_message(
        &self,
        alloc: Global,
        acked: bool,
        message: &Message,
        bytes: &[u8],
    ) -> Result<Option<Bits>, AllocError>
        requires { IsFragment self.now.role acked message.now bytes.now }
        ensures joined { IfOk result (λ joined. joined ≡ fragment_previewed message.now (payload_in message.now (octets bytes.now)) (found (in_key self.now.role acked) self.now.receivers)) }
        ensures memory { OnErr result (IsSome (fragment_previewed message.now (payload_in message.now (octets bytes.now)) (found (in_key self.now.role acked) self.now.receivers))) }
        ensures room { IfOk result (λ joined. IfSome joined (λ bits. length bits ≤ reassembly_bits)) }
    {
        if acked {
            self.answering.preview(alloc, message, bytes)
        } else {
            self.silent.preview(alloc, message, bytes)
        }
    }

    /// Whether a timer runs for the session.
    #[tactic(auto, unfolding(crate::specs::Steps::sessions_armed, crate::specs::Keys::entry))]
    fn session_timed(&self) -> bool
        ensures { result ≡ sessions_armed self.now.senders }
    {
        match &self.running {
            Some(running) => match running.sender.phase() {
                SenderPhase::Waiting | SenderPhase::Quiet => true,
                SenderPhase::Sending | SenderPhase::Closing => false,
            },
            None => false,
        }
    }
}
