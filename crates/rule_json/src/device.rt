//! Devices of a context.

ghost use Rattle.std.specs.Prelude.{◌≡◌};
ghost use Rattle.serde_json.specs.View.{view, items_view};
ghost use Rattle.rule_json.specs.Devices.{
  mtu_number,
  ticks_number,
  timers_from,
  timers_list,
  mtu_in,
  mode_in,
  last_in,
  timers_in,
  params_in,
  device_in,
};

use crate::digits::identifier_in;
use crate::fault::JsonFault;
use crate::values::{FromJson, number, small_number};
use crate::words::{acked_of, last_tile_of};
use rule_model::DeviceLine;
use schc_ids::limits::{is_mtu, is_ticks};
use schc_ids::{EndParams, Iids, LastTile, TimerTicks};
use serde_json::Value;
use std::alloc::Global;

/// The most bytes of a frame that the value is: 15 to 242.
#[tactic(auto, unfolding(crate::specs::Devices::mtu_number, crate::specs::Values::number_below))]
fn mtu_number(value: &Value) -> Option<u16>
    ensures { result ≡ mtu_number (view value.now) }
{
    let mtu = small_number(value)?;
    if is_mtu(mtu) { Some(mtu) } else { None }
}

/// The ticks of a timer that the value is: 1 to 1,000,000.
#[tactic(auto, unfolding(crate::specs::Devices::ticks_number, crate::specs::Values::number_below))]
fn ticks_number(value: &Value) -> Option<u32>
    ensures { result ≡ ticks_number (view value.now) }
{
    let ticks = number(value)?;
    if is_ticks(ticks) { Some(ticks) } else { None }
}

/// The ticks of the four timers that the values are: retransmission, inactivity, linger and quiet.
#[tactic(auto, unfolding(crate::specs::Devices::timers_from))]
fn timers_from(values: &[Value]) -> Option<TimerTicks>
    ensures { result ≡ timers_from (items_view values.now) }
{
    match values {
        [a, b, c, d] => Some(TimerTicks {
            retransmission: ticks_number(a)?,
            inactivity: ticks_number(b)?,
            linger: ticks_number(c)?,
            quiet: ticks_number(d)?,
        }),
        _ => None,
    }
}

/// The ticks of the four timers that the value is a list of.
#[tactic(auto, unfolding(crate::specs::Devices::timers_list))]
fn timers_list(value: &Value) -> Option<TimerTicks>
    ensures { result ≡ timers_list (view value.now) }
{
    timers_from(value.as_array()?.as_slice())
}

/// The most bytes of a device's frames.
#[tactic(auto, unfolding(crate::specs::Devices::mtu_in))]
fn mtu_in(default: u16, device: &Value) -> Option<u16>
    ensures { result ≡ mtu_in default (view device.now) }
{
    match device.get("mtu") {
        Some(mtu) => mtu_number(mtu),
        None => Some(default),
    }
}

/// Whether a device's fragments are answered.
#[tactic(auto, unfolding(crate::specs::Devices::mode_in))]
fn mode_in(default: bool, device: &Value) -> Option<bool>
    ensures { result ≡ mode_in default (view device.now) }
{
    match device.get("mode") {
        Some(mode) => acked_of(mode.as_str()?.as_bytes()),
        None => Some(default),
    }
}

/// Where the last tile of a device's packets goes.
#[tactic(auto, unfolding(crate::specs::Devices::last_in))]
fn last_in(default: LastTile, device: &Value) -> Option<LastTile>
    ensures { result ≡ last_in default (view device.now) }
{
    match device.get("last") {
        Some(last) => last_tile_of(last.as_str()?.as_bytes()),
        None => Some(default),
    }
}

/// The ticks of a device's timers.
#[tactic(auto, unfolding(crate::specs::Devices::timers_in))]
fn timers_in(default: TimerTicks, device: &Value) -> Option<TimerTicks>
    ensures { result ≡ timers_in default (view device.now) }
{
    match device.get("timers") {
        Some(timers) => timers_list(timers),
        None => Some(default),
    }
}

/// The parameters of a device's ends.
#[tactic(auto, unfolding(crate::specs::Devices::params_in))]
fn params_in(default: EndParams, device: &Value) -> Option<EndParams>
    ensures { result ≡ params_in default (view device.now) }
{
    Some(EndParams {
        iids: default.iids,
        mtu: mtu_in(default.mtu, device)?,
        acked: mode_in(default.acked, device)?,
        last: last_in(default.last, device)?,
        ticks: timers_in(default.ticks, device)?,
    })
}

/// The device that the value is.
#[tactic(auto, unfolding(crate::specs::Devices::device_in))]
fn device_in(value: &Value) -> Option<DeviceLine>
    ensures { result ≡ device_in (view value.now) }
{
    let number = small_number(value.get("device")?)?;
    let dev = identifier_in(value, "dev-iid")?;
    let app = identifier_in(value, "app-iid")?;
    let params = params_in(EndParams::with_defaults(Iids { dev, app }), value)?;
    Some(DeviceLine { number, params })
}

impl FromJson for DeviceLine {
    ghost layout = { device_in };

    fn from_json(_alloc: Global, value: &Value) -> Result<DeviceLine, JsonFault> {
        device_in(value).ok_or(JsonFault::NotLayout)
    }
}
