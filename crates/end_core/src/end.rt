//! The end.

ghost use Rattle.std.specs.Prelude.{◌≡◌, ◌*◌, ◌<◌, ◌≤◌, ◌⊎◌, ◌++◌, true, length, slice_get, Some, None, Ok, Err, IfOk, IfErr, IfSome, IsSome, IsSomeAnd, OnErr};
ghost use Rattle.schc_bits.specs.Bits.{number_bits};
ghost use Rattle.ip_udp_fields.specs.Fields.{has_ipv6_header};
ghost use Rattle.schc_ids.specs.Ends.{taken_direction};
ghost use Rattle.schc_ids.specs.Limits.{max_packet, max_mtu, min_session_bits};
ghost use Rattle.schc_ids.specs.Params.{IsParams};
ghost use Rattle.lorawan_profile.specs.Ports.{meaning_of};
ghost use Rattle.packer.specs.Schc.{Decodes};
ghost use Rattle.sessions.specs.Steps as session;
ghost use Rattle.end_core.specs.Data.{after_id, form_room};
ghost use Rattle.end_core.specs.Events.{IsOutcomeOf, IsWithin, IsAnswer, max_ipv6_packet, Take, Took};
ghost use Rattle.end_core.specs.End.{
  Begins,
  slot_from,
  first_turn,
  emitted_out,
  assembly_of,
  MayWant,
  new_end,
  form_of,
  refusal,
  down_step,
  slot_step,
  read_bits,
  read,
  joined,
  part_step,
  refused,
  up_of,
  taken_whole,
  taken_part,
  take_step,
  tick_step,
  abort_step,
  is_armed,
  offer_step,
  allow_step,
};

use crate::forms::{carried, frame_of, frame_size};
use editions::Edition;
use event_data::{Accepted, DownFault, EmitKind, Emitted, Frame, HandUp, Offered, Taken};
use ip_udp_fields::has_ipv6_header;
use lorawan_profile::{PortMeaning, meaning};
use packer::{Packed, Unpacked, pack, unpack};
use schc_bits::Bits;
use schc_ids::limits::{MAX_PACKET, QUEUE_ROOM};
use schc_ids::{Cause, EndParams, Note, Report, Role, UnpackFault};
use sessions::{SessionOut, Sessions};
use std::alloc::{AllocError, Global};
use std::collections::VecDeque;
use std::marker::Model;
use std::mem;
use std::sync::Arc;

/// One end of the link: its role and parameters, the edition of rules that it knows, the one that it
/// writes with, the packets that wait to be sent, the first first, and what it sends and receives in
/// fragments.
#[derive(Drop)]
pub struct End {
    alloc: Global,
    role: Role,
    params: EndParams,
    known: Arc<Edition>,
    /// The edition that the end writes with, while it isn't the known one.
    writing: Option<Arc<Edition>>,
    queue: VecDeque<Packed>,
    sessions: Sessions,
}

impl Model for End {
    ghost use Rattle.std.specs.Option.{option_map_or};
    ghost use Rattle.end_core.specs.Data.{EndData, IsEnd};

    ghost Value = { EndData };

    ghost view = { λ e. record {
      role = e.role;
      params = e.params;
      known = e.known.value;
      writes = option_map_or (λ edition. edition.value) e.writing e.known.value;
      queue = e.queue.items;
      sessions = e.sessions;
    } };

    ghost invariant = { λ e. IsEnd e.role e.params e.queue.items e.sessions };
}

impl End {
    /// A new end: it knows the empty edition 0 and writes with it, nothing waits, and no session has
    /// begun.
    ///
    /// # Errors
    /// Want of memory.
    pub fn new(alloc: Global, role: Role, params: EndParams) -> Result<End, AllocError>
        requires { IsParams params }
        ensures { IfOk result (λ end. end ≡ new_end role params) }
    {
        let known = Arc::new(alloc, Edition::empty(alloc))?;
        let sessions = Sessions::new(alloc, role, &params)?;
        Ok(End {
            alloc,
            role,
            params,
            known,
            writing: None,
            queue: VecDeque::new(alloc),
            sessions,
        })
    }

    /// The edition of rules that the end knows and reads with.
    pub fn known(&self) -> &Edition
        ensures { result.now ≡ self.now.known }
    {
        &self.known
    }

    /// The edition of rules that the end writes with.
    pub fn writes(&self) -> &Edition
        ensures { result.now ≡ self.now.writes }
    {
        match &self.writing {
            Some(edition) => edition,
            None => &self.known,
        }
    }

    /// Takes a packet that is handed down. It is written with the edition that the end writes with
    /// now, and waits so behind the others.
    ///
    /// # Errors
    /// The first that holds: `NotIpv6` for under 40 bytes or a version that isn't 6; `TooLong` for
    /// more than 1,500 bytes; `Full` where 8 packets wait. Or want of memory, which comes only where
    /// none of these holds. Nothing has changed then.
    #[tactic(auto, unfolding(crate::specs::End::refusal, crate::specs::End::down_step, crate::specs::End::down_from))]
    pub fn down(&mut self, packet: &[u8]) -> Result<Accepted, DownFault>
        ensures done { IfOk result (λ accepted. down_step self.old packet.now ≡ (self.new, Ok accepted)) }
        ensures refused { IfErr result (λ fault. (fault ≡ DownFault.Memory) ⊎ (down_step self.old packet.now ≡ (self.old, Err fault))) }
        ensures unchanged { OnErr result (self.new ≡ self.old) }
        ensures memory { IfErr result (λ fault. fault ≡ DownFault.Memory → refusal self.old packet.now ≡ None) }
    {
        if !has_ipv6_header(packet) {
            return Err(DownFault::NotIpv6);
        }
        if packet.len() > MAX_PACKET {
            return Err(DownFault::TooLong);
        }
        if self.queue.len() >= QUEUE_ROOM {
            return Err(DownFault::Full);
        }
        let form = match self.form_of(packet) {
            Ok(form) => form,
            Err(_) => return Err(DownFault::Memory),
        };
        let answer = Accepted {
            edition: form.edition,
            rule_id: form.rule_id,
            bits: form.bits.len() as u32,
        };
        match self.queue.push_back(form) {
            Ok(()) => Ok(answer),
            Err(_) => Err(DownFault::Memory),
        }
    }

    /// The packet as the end writes it now.
    ///
    /// # Errors
    /// Want of memory.
    fn form_of(&self, packet: &[u8]) -> Result<Packed, AllocError>
        requires ipv6 { has_ipv6_header packet.now ≡ true }
        requires short { length packet.now ≤ max_packet }
        ensures form { IfOk result (λ form. form ≡ form_of self.now packet.now) }
        ensures is_port { IfOk result (λ form. form.rule_id < 256) }
        ensures has_id { IfOk result (λ form. 8 ≤ length form.bits) }
        ensures begins { IfOk result (λ form. form.bits ≡ number_bits 8 form.rule_id ++ after_id form.bits) }
        ensures is_short { IfOk result (λ form. length form.bits < form_room) }
    {
        pack(
            self.alloc,
            self.writes(),
            self.params.iids,
            self.role.sends(),
            packet,
        )
    }

    /// The frame that is due, if one is: first an answer to what was received, second a Sender-Abort,
    /// third the next message of a session. Fourth, where no session is sending, waiting or closing,
    /// the first packet that waits: whole where it fits a frame, else as a session, unless the number
    /// of the last one is still quiet.
    ///
    /// # Errors
    /// Want of memory; nothing has changed then.
    pub fn slot(&mut self) -> Result<Option<Emitted>, AllocError>
        ensures done { IfOk result (λ answer. slot_step self.old ≡ (self.new, answer)) }
        ensures unchanged { OnErr result (self.new ≡ self.old) }
        ensures port { IfOk result (λ answer. IfSome answer (λ emitted. emitted.frame.port < 256)) }
        ensures size { IfOk result (λ answer. IfSome answer (λ emitted. length emitted.frame.bytes ≤ self.old.params.mtu)) }
        ensures within { IfOk result (λ answer. IfSome answer (λ emitted. length emitted.frame.bytes ≤ max_mtu)) }
    {
        if let Some(out) = self.sessions.next(self.alloc)? {
            return Ok(Some(emitted_out(out)));
        }
        if self.sessions.busy() {
            return Ok(None);
        }
        self.send_first()
    }

    /// The frame that the first packet that waits gives, where no session is sending, waiting or
    /// closing.
    ///
    /// # Errors
    /// Want of memory; nothing has changed then.
    #[tactic(auto, unfolding(crate::specs::End::queue_turn, crate::specs::End::slot_from))]
    fn send_first(&mut self) -> Result<Option<Emitted>, AllocError>
        ensures done { IfOk result (λ answer. slot_from self.old (first_turn self.old) ≡ (self.new, answer)) }
        ensures unchanged { OnErr result (self.new ≡ self.old) }
        ensures port { IfOk result (λ answer. IfSome answer (λ emitted. emitted.frame.port < 256)) }
        ensures size { IfOk result (λ answer. IfSome answer (λ emitted. length emitted.frame.bytes ≤ self.old.params.mtu)) }
    {
        let Some(form) = self.queue.front() else {
            return Ok(None);
        };
        if frame_size(&form.bits) <= usize::from(self.params.mtu) {
            let frame = frame_of(self.alloc, form)?;
            self.queue.pop_front();
            return Ok(Some(emitted_whole(frame)));
        }
        if !self.sessions.may_begin() {
            return Ok(None);
        }
        Ok(Some(self.begin_first()?))
    }

    /// The first message of a session that begins with the first packet that waits.
    ///
    /// # Errors
    /// Want of memory; nothing has changed then.
    #[tactic(auto, unfolding(crate::specs::End::slot_from))]
    fn begin_first(&mut self) -> Result<Emitted, AllocError>
        requires first { IsSomeAnd (slice_get self.old.queue 0) (λ form. min_session_bits ≤ length form.bits) }
        requires free { session.may_begin self.old.sessions ≡ true }
        ensures done { IfOk result (λ emitted. IfSome (slice_get self.old.queue 0) (λ form. slot_from self.old (Begins form) ≡ (self.new, Some emitted))) }
        ensures unchanged { OnErr result (self.new ≡ self.old) }
        ensures port { IfOk result (λ emitted. emitted.frame.port < 256) }
        ensures size { IfOk result (λ emitted. length emitted.frame.bytes ≤ self.old.params.mtu) }
    {
        let Packed {
            edition,
            rule_id,
            bits,
        } = self.queue.pop_front().unwrap();
        match self.sessions.begin(self.alloc, bits) {
            Ok(out) => Ok(emitted_out(out)),
            Err(bits) => {
                self.queue.push_front_reserved(Packed {
                    edition,
                    rule_id,
                    bits,
                });
                Err(AllocError)
            }
        }
    }

    /// Takes a frame: a whole SCHC packet is read with the edition that the end knows, and so is one
    /// that a fragment makes whole. A packet that is handed up has at most 65,575 bytes, or as many as
    /// the frame where that is more.
    ///
    /// # Errors
    /// Want of memory, which comes only for a whole SCHC packet, an All-1 and an ACK REQ; nothing has
    /// changed then.
    #[tactic(auto, unfolding(crate::specs::End::take_step, crate::specs::End::take_from))]
    pub fn take(&mut self, frame: &Frame) -> Result<Taken, AllocError>
        ensures done { IfOk result (λ answer. take_step self.old frame.now ≡ (self.new, answer)) }
        ensures unchanged { OnErr result (self.new ≡ self.old) }
        ensures outcome { IfOk result (λ answer. IsOutcomeOf (Take frame.now) (Took answer)) }
        ensures bound { IfOk result (λ answer. IfSome answer.up (λ up. IsWithin frame.now up.packet)) }
        ensures memory { OnErr result (MayWant frame.now (meaning_of self.old.role frame.now.port)) }
    {
        match meaning(self.role, frame.port) {
            PortMeaning::Whole => self.take_whole(frame),
            PortMeaning::Fragments(_) | PortMeaning::Answers(_) => self.take_part(frame),
            PortMeaning::Unknown => Ok(refused(Cause::UnknownPort)),
        }
    }

    /// What the end answers to a frame that carries a whole SCHC packet.
    ///
    /// # Errors
    /// Want of memory.
    #[tactic(auto, unfolding(crate::specs::End::taken_whole))]
    fn take_whole(&self, frame: &Frame) -> Result<Taken, AllocError>
        ensures done { IfOk result (λ answer. answer ≡ taken_whole self.now.known.number (read self.now frame.now)) }
        ensures outcome { IfOk result (λ answer. IsOutcomeOf (Take frame.now) (Took answer)) }
        ensures bound { IfOk result (λ answer. IfSome answer.up (λ up. IsWithin frame.now up.packet)) }
    {
        let bits = carried(self.alloc, frame)?;
        match self.read(&bits)? {
            Ok(unpacked) => Ok(handed_up(self.known.number(), unpacked, None, Note::Small)),
            Err(fault) => Ok(refused(Cause::Unpack(fault))),
        }
    }

    /// What the end answers to a fragment or to an answer to its fragments.
    ///
    /// # Errors
    /// Want of memory; nothing has changed then.
    fn take_part(&mut self, frame: &Frame) -> Result<Taken, AllocError>
        ensures done { IfOk result (λ answer. part_step self.old frame.now ≡ (self.new, answer)) }
        ensures unchanged { OnErr result (self.new ≡ self.old) }
        ensures outcome { IfOk result (λ answer. IsOutcomeOf (Take frame.now) (Took answer)) }
        ensures bound { IfOk result (λ answer. IfSome answer.up (λ up. IsWithin frame.now up.packet)) }
        ensures memory { OnErr result (IsSome (assembly_of self.old frame.now)) }
    {
        let joined = self.joined(frame)?;
        let bytes = frame.bytes.as_slice();
        let (note, report) = self.sessions.take(frame.port, bytes);
        Ok(taken_part(self.known.number(), note, report, joined))
    }

    /// What the end reads from the SCHC packet that the frame makes whole, where it makes one.
    ///
    /// # Errors
    /// Want of memory.
    fn joined(&self, frame: &Frame) -> Result<Option<Result<Unpacked, UnpackFault>>, AllocError>
        ensures done { IfOk result (λ read. read ≡ joined self.now frame.now) }
        ensures note { IfOk result (λ read. IfSome read IsAnswer) }
        ensures bound { IfOk result (λ read. IfSome read (λ read. IfOk read (λ unpacked. length unpacked.packet ≤ max_ipv6_packet))) }
        ensures memory { OnErr result (IsSome (assembly_of self.now frame.now)) }
    {
        let bytes = frame.bytes.as_slice();
        match self.sessions.preview(self.alloc, frame.port, bytes)? {
            Some(assembly) => Ok(Some(self.read(&assembly)?)),
            None => Ok(None),
        }
    }

    /// What the end reads from the bits of an SCHC packet, with the edition that it knows.
    ///
    /// # Errors
    /// Want of memory.
    fn read(&self, bits: &Bits) -> Result<Result<Unpacked, UnpackFault>, AllocError>
        ensures done { IfOk result (λ read. read ≡ read_bits self.now bits.now) }
        ensures note { IfOk result IsAnswer }
        ensures says { IfOk result (λ read. IfOk read (λ unpacked. Decodes self.now.known self.now.params.iids (taken_direction self.now.role) bits.now unpacked.packet unpacked.rule_id)) }
        ensures bound { IfOk result (λ read. IfOk read (λ unpacked. (length unpacked.packet ≤ max_ipv6_packet) ⊎ (8 * length unpacked.packet ≤ length bits.now))) }
    {
        let direction = self.role.other().sends();
        match unpack(self.alloc, &self.known, self.params.iids, direction, bits) {
            Ok(unpacked) => Ok(Ok(unpacked)),
            Err(UnpackFault::Memory) => Err(AllocError),
            Err(fault) => Ok(Err(fault)),
        }
    }

    /// Lets one tick pass, and says how a session of this end ended by it. With no armed timer it
    /// changes nothing.
    #[tactic(auto, unfolding(crate::specs::End::tick_step))]
    pub fn tick(&mut self) -> Option<Report>
        ensures { tick_step self.old ≡ (self.new, result) }
    {
        self.sessions.tick()
    }

    /// Gives up the session that the end sends, and says so: `None` exactly where no session is
    /// sending or waiting.
    #[tactic(auto, unfolding(crate::specs::End::abort_step))]
    pub fn abort(&mut self) -> Option<Report>
        ensures { abort_step self.old ≡ (self.new, result) }
    {
        self.sessions.abort()
    }

    /// Whether a timer of this end runs.
    #[tactic(auto, unfolding(crate::specs::End::is_armed))]
    pub fn armed(&self) -> bool
        ensures { result ≡ is_armed self.now }
    {
        self.sessions.armed()
    }

    /// Offers an edition of rules to the end, which knows it from now on unless it is older than the
    /// known one or diverges from it. The end goes on to write with the edition that it wrote with.
    #[tactic(auto, unfolding(crate::specs::End::offer_step, crate::specs::End::offer_from))]
    pub fn offer(&mut self, edition: Arc<Edition>) -> Offered
        ensures { offer_step self.old edition.value ≡ (self.new, result) }
    {
        if edition.number() <= self.known.number() {
            return Offered::Older;
        }
        if let Some(id) = self.known.diverges(&edition) {
            return Offered::Diverged(id);
        }
        let before = mem::replace(&mut self.known, edition);
        if self.writing.is_none() {
            self.writing = Some(before);
        }
        Offered::Adopted
    }

    /// Allows the end to write with the edition of this number: true exactly where it is the known
    /// one, and then the end writes with it.
    #[tactic(auto, unfolding(crate::specs::End::allow_step, crate::specs::End::allow_from))]
    pub fn allow(&mut self, number: u32) -> bool
        ensures { allow_step self.old number ≡ (self.new, result) }
    {
        if number != self.known.number() {
            return false;
        }
        self.writing = None;
        true
    }
}

/// What the end says of a frame that carries an SCHC packet whole.
fn emitted_whole(frame: Frame) -> Emitted
    ensures { result ≡ record { frame = frame; kind = EmitKind.Whole; report = None } }
{
    Emitted {
        frame,
        kind: EmitKind::Whole,
        report: None,
    }
}

/// What the end says of a frame that is given of its sessions.
fn emitted_out(out: SessionOut) -> Emitted
    ensures { result ≡ emitted_out out }
{
    Emitted {
        frame: out.frame,
        kind: out.kind,
        report: out.report,
    }
}

/// The answer to a frame that is refused.
fn refused(cause: Cause) -> Taken
    ensures { result ≡ refused cause }
{
    Taken {
        up: None,
        report: None,
        note: Note::Refused(cause),
    }
}

/// The answer to a frame whose packet was read with the edition of this number.
fn handed_up(number: u32, unpacked: Unpacked, report: Option<Report>, note: Note) -> Taken
    ensures { result ≡ record { up = Some (up_of number unpacked); report = report; note = note } }
{
    Taken {
        up: Some(HandUp {
            edition: number,
            rule_id: unpacked.rule_id,
            packet: unpacked.packet,
        }),
        report,
        note,
    }
}

/// The answer to a fragment or to an answer that meant this to the sessions: the packet that it makes
/// whole, read with the edition of this number, is handed up.
#[tactic(auto, unfolding(crate::specs::End::taken_part))]
fn taken_part(
    number: u32,
    note: Note,
    report: Option<Report>,
    joined: Option<Result<Unpacked, UnpackFault>>,
) -> Taken
    ensures { result ≡ taken_part number (note, report) joined }
{
    match joined {
        None => Taken {
            up: None,
            report,
            note,
        },
        Some(Ok(unpacked)) => handed_up(number, unpacked, report, note),
        Some(Err(fault)) => Taken {
            up: None,
            report,
            note: Note::Refused(Cause::Unpack(fault)),
        },
    }
}
