//! The making of a whole load.

ghost use Rattle.std.specs.Prelude.{
  ◌≡◌,
  ◌+◌,
  ◌*◌,
  ◌<◌,
  ◌≤◌,
  ◌^◌,
  ◌++◌,
  [],
  length,
  map,
  flat_map,
  IfOk,
  OnOk,
};
ghost use Rattle.schc_ids.specs.Params.{IsParams};
ghost use Rattle.script_lang.specs.Ranges.{max_events, HandBytes};
ghost use Rattle.load_maker.specs.Load.{below, load_device, round_of, draws, load, rounds};

use crate::draws::draws;
use crate::frames::{draw_at, frames_before};
use crate::packets::APP_IID;
use crate::turns::add_turn;
use rule_model::DeviceLine;
use schc_ids::{EndParams, Iids, LastTile, TimerTicks};
use script_lang::Script;
use std::alloc::{AllocError, Global};

/// How many packets each device hands down.
const ROUNDS: u16 = 3;

/// The device with this number.
fn load_device(number: u16) -> DeviceLine
    ensures device { result ≡ load_device number }
    ensures in_range { IsParams result.params }
{
    DeviceLine {
        number,
        params: EndParams {
            iids: Iids {
                dev: u64::from(number) + 1,
                app: APP_IID,
            },
            mtu: 51,
            acked: true,
            last: LastTile::InAll1,
            ticks: TimerTicks {
                retransmission: 10,
                inactivity: 40,
                linger: 1,
                quiet: 2,
            },
        },
    }
}

/// Declares so many devices.
///
/// # Errors
/// Want of memory.
#[tactic(auto, using(crate::proofs::LoadLemmas::one_more, crate::proofs::LoadLemmas::fresh, crate::proofs::LoadLemmas::counted))]
fn declare_devices(script: &mut Script, devices: u16) -> Result<(), AllocError>
    requires none { script.old.devices ≡ [] }
    requires few { devices ≤ 1024 }
    ensures devices { OnOk result (script.new.devices ≡ map load_device (below devices)) }
    ensures events { script.new.events ≡ script.old.events }
{
    for number in 0..devices {
        script.declare(load_device(number))?;
    }
    Ok(())
}

/// Adds the events of a round.
///
/// # Errors
/// Want of memory.
#[tactic(auto, using(crate::proofs::LoadLemmas::flat_more, crate::proofs::LoadLemmas::known, crate::proofs::LoadLemmas::within))]
fn add_round(
    alloc: Global,
    script: &mut Script,
    draws: &[u16],
    devices: u16,
    round: u16,
) -> Result<(), AllocError>
    requires declared { script.old.devices ≡ map load_device (below devices) }
    requires all { length draws.now ≡ 3 * devices }
    requires rounds { round < 3 }
    requires devices { devices ≤ 1024 }
    requires few { length script.old.events ≤ 15360 * round }
    ensures events { OnOk result (script.new.events ≡ script.old.events ++ round_of draws.now devices round) }
    ensures devices { script.new.devices ≡ script.old.devices }
    ensures few { OnOk result (length script.new.events ≤ 15360 * round + 15360) }
{
    for device in 0..devices {
        let draw = draw_at(draws, devices, round, device);
        let frames = frames_before(draws, devices, round, device);
        add_turn(alloc, script, device, draw, frames)?;
    }
    Ok(())
}

/// Adds the events of all rounds.
///
/// # Errors
/// Want of memory.
#[tactic(auto, using(crate::proofs::LoadLemmas::flat_more))]
fn add_rounds(
    alloc: Global,
    script: &mut Script,
    draws: &[u16],
    devices: u16,
) -> Result<(), AllocError>
    requires declared { script.old.devices ≡ map load_device (below devices) }
    requires all { length draws.now ≡ 3 * devices }
    requires devices { devices ≤ 1024 }
    requires none { script.old.events ≡ [] }
    ensures events { OnOk result (script.new.events ≡ flat_map (round_of draws.now devices)
        (below rounds)) }
    ensures devices { script.new.devices ≡ script.old.devices }
    ensures few { OnOk result (length script.new.events ≤ 46080) }
{
    for round in 0..ROUNDS {
        add_round(alloc, script, draws, devices, round)?;
    }
    Ok(())
}

/// The load of a number: a script of so many devices, each of which hands down three packets of 40
/// to 200 bytes, made of draws of a linear congruential generator that begins with `start`. Each is
/// sent in one frame or in a session, and each frame is delivered.
///
/// # Errors
/// Want of memory.
#[tactic(auto, using(crate::proofs::BytesLemmas::load_bytes))]
pub fn make_load(alloc: Global, devices: u16, start: u32) -> Result<Script, AllocError>
    requires least { 1 ≤ devices }
    requires most { devices ≤ 1024 }
    requires start { start < 2 ^ 31 }
    ensures load { IfOk result (λ script. script ≡ load devices start) }
    ensures few { IfOk result (λ script. length script.events ≤ 46080) }
    ensures bytes { IfOk result (λ script. HandBytes script.events) }
{
    let draws = draws(alloc, usize::from(ROUNDS) * usize::from(devices), start)?;
    let mut script = Script::new(alloc);
    declare_devices(&mut script, devices)?;
    add_rounds(alloc, &mut script, draws.as_slice(), devices)?;
    Ok(script)
}
