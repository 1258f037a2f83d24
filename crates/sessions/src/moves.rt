//! What a session or a receiver of an end does, and its timer with it.

ghost use Rattle.std.specs.Prelude.{ℕ, Option, ◌≡◌, ◌≤◌, ◌<◌, Bool, if◌then◌else◌, length, Some, None, option_map, IfOk, IfSome, OnOk, OnErr};
ghost use Rattle.schc_bits.specs.Bits.{octets};
ghost use Rattle.schc_ids.specs.Fragments.{params_of};
ghost use Rattle.schc_ids.specs.Params.{AreTicks};
ghost use Rattle.schc_ids.specs.declared.ends.EndParams.{EndParams};
ghost use Rattle.schc_ids.specs.declared.ends.Role.{Role};
ghost use Rattle.frag_wire.specs.Layouts.{payload_in};
ghost use Rattle.frag_wire.specs.Spells.{Spells};
ghost use Rattle.sessions.specs.Clocks.{left_of, set_clock};
ghost use Rattle.sessions.specs.Data.{port_key, session_of, shown};
ghost use Rattle.sessions.specs.Holds.{AreRunning, IsReceiving, IsRunning};
ghost use Rattle.sessions.specs.Receivers.{receiver_mode, receiver_phase};
ghost use Rattle.sessions.specs.Reception.{reception_taken, receiver_fired};
ghost use Rattle.sessions.specs.Senders.{HasAnswer, sender_bits, sender_due, sender_mtu};
ghost use Rattle.sessions.specs.Sends.{IsNext};
ghost use Rattle.sessions.specs.Session.{session_aborted, session_heard, session_sent, sent_report};
ghost use Rattle.sessions.specs.Steps.{fired_session, given};

use crate::clocks::{Clock, Clocks};
use crate::out::{SessionOut, heard_report, sent_report};
use crate::receivers::Receiver;
use crate::senders::Sender;
use event_data::{EmitKind, Frame};
use frag_wire::Message;
use schc_ids::{Heard, Note, Report, SenderPhase, Side, TimerTicks};
use std::alloc::{AllocError, Global};

/// The session that an end sends, with its number.
#[derive(Drop)]
pub struct Running {
    pub number: u64,
    pub sender: Sender,
}

/// The message of the session that is due is given by the port, where one is.
///
/// # Errors
/// Want of memory; the session and its timer are then as before.
pub fn give_message(
    alloc: Global,
    running: &mut Running,
    clocks: &mut Clocks,
    ticks: &TimerTicks,
    port: u8,
    kind: EmitKind,
) -> Result<Option<SessionOut>, AllocError>
    requires ticks { AreTicks ticks.now }
    ensures given { IfOk result (λ out. out ≡ option_map (λ bytes. given (port_key port) bytes kind (sent_report (shown running.old clocks.old.sending))) (sender_due running.old.sender)) }
    ensures after { OnOk result (shown running.new clocks.new.sending ≡ session_sent ticks.now (shown running.old clocks.old.sending)) }
    ensures others { clocks.new ≡ record clocks.old { sending = clocks.new.sending } }
    ensures keeps { (role : Role) (params : EndParams) → IsRunning role params running.old clocks.old.sending → IsRunning role params running.new clocks.new.sending }
    ensures unchanged { OnErr result (shown running.new clocks.new.sending ≡ shown running.old clocks.old.sending) }
    ensures room { IfOk result (λ out. IfSome out (λ out. length out.frame.bytes ≤ sender_mtu running.old.sender)) }
    ensures port { IfOk result (λ out. IfSome out (λ out. out.frame.port ≡ port)) }
{
    let before = running.sender.phase();
    let Some(bytes) = running.sender.next(alloc)? else {
        return Ok(None);
    };
    let after = running.sender.phase();
    clocks.sender_moved(ticks, before, after);
    Ok(Some(SessionOut {
        frame: Frame { port, bytes },
        kind,
        report: sent_report(running.number, before, after),
    }))
}

/// The message that is due of the session, where there is one, is given by the port.
///
/// # Errors
/// Want of memory; the session and its timer are then as before.
pub fn give_next(
    alloc: Global,
    running: &mut Option<Running>,
    clocks: &mut Clocks,
    ticks: &TimerTicks,
    port: u8,
) -> Result<Option<SessionOut>, AllocError>
    requires ticks { AreTicks ticks.now }
    ensures step { IfOk result (λ out. IsNext ticks.now (port_key port) (session_of running.old clocks.old.sending) (session_of running.new clocks.new.sending) out) }
    ensures others { clocks.new ≡ record clocks.old { sending = clocks.new.sending } }
    ensures unchanged { OnErr result (session_of running.new clocks.new.sending ≡ session_of running.old clocks.old.sending) }
    ensures keeps { (role : Role) (params : EndParams) → AreRunning role params running.old clocks.old.sending → AreRunning role params running.new clocks.new.sending }
    ensures room { (role : Role) (params : EndParams) → AreRunning role params running.old clocks.old.sending → IfOk result (λ out. IfSome out (λ out. length out.frame.bytes ≤ params.mtu)) }
    ensures port { IfOk result (λ out. IfSome out (λ out. out.frame.port ≡ port)) }
{
    let Some(session) = running else {
        return Ok(None);
    };
    match session.sender.phase() {
        SenderPhase::Sending | SenderPhase::Closing => {
            let kind = EmitKind::Goes(session.number);
            give_message(alloc, session, clocks, ticks, port, kind)
        }
        SenderPhase::Waiting | SenderPhase::Quiet => Ok(None),
    }
}

/// The session hears an answer.
pub fn hear_message(
    running: &mut Running,
    clocks: &mut Clocks,
    ticks: &TimerTicks,
    message: &Message,
) -> Heard
    requires ticks { AreTicks ticks.now }
    requires answer { HasAnswer running.old.sender message.now }
    ensures exact { session_heard ticks.now message.now (shown running.old clocks.old.sending) ≡ (shown running.new clocks.new.sending, result) }
    ensures others { clocks.new ≡ record clocks.old { sending = clocks.new.sending } }
    ensures keeps { (role : Role) (params : EndParams) → IsRunning role params running.old clocks.old.sending → IsRunning role params running.new clocks.new.sending }
{
    let before = running.sender.phase();
    let heard = running.sender.answer(message);
    clocks.sender_moved(ticks, before, running.sender.phase());
    heard
}

/// The session is given up.
pub fn give_up(running: &mut Running, clocks: &mut Clocks, ticks: &TimerTicks) -> Heard
    requires ticks { AreTicks ticks.now }
    ensures exact { session_aborted ticks.now (shown running.old clocks.old.sending) ≡ (shown running.new clocks.new.sending, result) }
    ensures others { clocks.new ≡ record clocks.old { sending = clocks.new.sending } }
    ensures keeps { (role : Role) (params : EndParams) → IsRunning role params running.old clocks.old.sending → IsRunning role params running.new clocks.new.sending }
{
    let before = running.sender.phase();
    let heard = running.sender.abort();
    clocks.sender_moved(ticks, before, running.sender.phase());
    heard
}

/// The timer of the session is due.
pub fn fire_session(
    running: &mut Option<Running>,
    clocks: &mut Clocks,
    ticks: &TimerTicks,
) -> Option<Report>
    requires ticks { AreTicks ticks.now }
    requires taken { clocks.old.sending ≡ None }
    ensures exact { fired_session ticks.now (session_of running.old None) ≡ (session_of running.new clocks.new.sending, result) }
    ensures gone { running.new ≡ None → clocks.new.sending ≡ None }
    ensures others { clocks.new ≡ record clocks.old { sending = clocks.new.sending } }
    ensures keeps { (role : Role) (params : EndParams) (left : Option ℕ) → AreRunning role params running.old left → AreRunning role params running.new clocks.new.sending }
{
    let Some(session) = running else {
        return None;
    };
    let before = session.sender.phase();
    match before {
        SenderPhase::Quiet => {
            *running = None;
            None
        }
        SenderPhase::Waiting => {
            let heard = session.sender.due();
            let after = session.sender.phase();
            let report = heard_report(session.number, heard);
            clocks.sender_moved(ticks, before, after);
            report
        }
        SenderPhase::Sending => None,
        SenderPhase::Closing => None,
    }
}

/// The receiver takes the message, which the bytes are.
pub fn take_message(
    receiver: &mut Receiver,
    clocks: &mut Clocks,
    clock: Clock,
    ticks: &TimerTicks,
    message: &Message,
    bytes: &[u8],
) -> Note
    requires ticks { AreTicks ticks.now }
    requires read { Spells (params_of (receiver_mode receiver.old)) Side.Fragments message.now (payload_in message.now (octets bytes.now)) bytes.now }
    ensures exact { reception_taken ticks.now message.now (payload_in message.now (octets bytes.now)) (record { receiver = receiver.old; left = left_of clock clocks.old }) ≡ (record { receiver = receiver.new; left = left_of clock clocks.new }, result) }
    ensures others { clocks.new ≡ set_clock clock (left_of clock clocks.new) clocks.old }
    ensures keeps { (role : Role) (acked : Bool) → IsReceiving role acked receiver.old (left_of clock clocks.old) → IsReceiving role acked receiver.new (left_of clock clocks.new) }
{
    let before = receiver.phase();
    let note = receiver.take(message, bytes);
    clocks.receiver_moved(clock, ticks, before, receiver.phase(), note);
    note
}

/// The timer of the receiver is due, or not.
pub fn fire_if(receiver: &mut Receiver, due: bool)
    ensures { receiver.new ≡ (if due then receiver_fired (receiver_phase receiver.old) receiver.old else receiver.old) }
{
    if due {
        receiver.fire();
    }
}
