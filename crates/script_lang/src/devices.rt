//! The lines that declare a device.

ghost use Rattle.std.specs.Prelude.{◌≡◌, map, IfSome, codes};
ghost use Rattle.std.specs.Option.{option_map};
ghost use Rattle.schc_ids.specs.Limits.{IsMtu, IsTicks};
ghost use Rattle.schc_ids.specs.Params.{AreTicks, IsParams};
ghost use Rattle.rule_json.specs.Words.{acked_of, last_tile_of};
ghost use Rattle.script_lang.specs.Devices.{
  mtu_of,
  ticks_of,
  timers_of,
  iids_of,
  option_in,
  timers_in,
  params_in,
  declared_device,
  device_in,
};

use crate::text::{edition_number, iid, small_number};
use rule_json::{acked_of, last_tile_of};
use rule_model::DeviceLine;
use schc_ids::limits::{is_mtu, is_ticks};
use schc_ids::{EndParams, Iids, LastTile, TimerTicks};

/// The number of bytes that an `mtu` says: 15 to 242.
#[tactic(auto, unfolding(crate::specs::Devices::mtu_of, crate::specs::Text::number_of))]
fn mtu(word: &[u8]) -> Option<u16>
    ensures number { result ≡ mtu_of word.now }
    ensures range { IfSome result (λ mtu. IsMtu mtu) }
{
    let mtu = small_number(word)?;
    if is_mtu(mtu) { Some(mtu) } else { None }
}

/// The ticks for which a timer runs: 1 to 1,000,000.
#[tactic(auto, unfolding(crate::specs::Devices::ticks_of, crate::specs::Text::number_of))]
fn ticks(word: &[u8]) -> Option<u32>
    ensures number { result ≡ ticks_of word.now }
    ensures range { IfSome result (λ ticks. IsTicks ticks) }
{
    let ticks = edition_number(word)?;
    if is_ticks(ticks) { Some(ticks) } else { None }
}

/// The ticks of the four timers: retransmission, inactivity, linger and quiet.
#[tactic(auto, unfolding(crate::specs::Devices::timers_of))]
fn timers(a: &[u8], b: &[u8], c: &[u8], d: &[u8]) -> Option<TimerTicks>
    ensures timers { result ≡ timers_of a.now b.now c.now d.now }
    ensures range { IfSome result (λ timers. AreTicks timers) }
{
    Some(TimerTicks {
        retransmission: ticks(a)?,
        inactivity: ticks(b)?,
        linger: ticks(c)?,
        quiet: ticks(d)?,
    })
}

/// The interface identifiers that two words spell.
#[tactic(auto, unfolding(crate::specs::Devices::iids_of))]
fn iids(dev: &[u8], app: &[u8]) -> Option<Iids>
    ensures { result ≡ iids_of dev.now app.now }
{
    let dev = iid(dev)?;
    let app = iid(app)?;
    Some(Iids { dev, app })
}

/// What `mtu M` says where the words begin with it, and the words after it.
fn mtu_option<'a>(default: u16, words: &'a [&'a [u8]]) -> Option<(u16, &'a [&'a [u8]])>
    requires { IsMtu default }
    ensures option { option_map (λ p. (p.0, map (λ word. word.now) p.1.now)) result
        ≡ option_in (codes "mtu") mtu_of default (map (λ word. word.now) words.now) }
    ensures range { IfSome result (λ p. IsMtu p.0) }
{
    match words {
        [name, value, rest @ ..] => {
            if *name == b"mtu".as_slice() {
                Some((mtu(value)?, rest))
            } else {
                Some((default, words))
            }
        }
        _ => Some((default, words)),
    }
}

/// What `mode acked|noack` says where the words begin with it, and the words after it.
fn mode_option<'a>(default: bool, words: &'a [&'a [u8]]) -> Option<(bool, &'a [&'a [u8]])>
    ensures { option_map (λ p. (p.0, map (λ word. word.now) p.1.now)) result
        ≡ option_in (codes "mode") acked_of default (map (λ word. word.now) words.now) }
{
    match words {
        [name, value, rest @ ..] => {
            if *name == b"mode".as_slice() {
                Some((acked_of(value)?, rest))
            } else {
                Some((default, words))
            }
        }
        _ => Some((default, words)),
    }
}

/// What `last all1|regular` says where the words begin with it, and the words after it.
fn last_option<'a>(default: LastTile, words: &'a [&'a [u8]]) -> Option<(LastTile, &'a [&'a [u8]])>
    ensures { option_map (λ p. (p.0, map (λ word. word.now) p.1.now)) result
        ≡ option_in (codes "last") last_tile_of default (map (λ word. word.now) words.now) }
{
    match words {
        [name, value, rest @ ..] => {
            if *name == b"last".as_slice() {
                Some((last_tile_of(value)?, rest))
            } else {
                Some((default, words))
            }
        }
        _ => Some((default, words)),
    }
}

/// What `timers A B C D` says where it is given; no word may follow it.
#[tactic(auto, unfolding(crate::specs::Devices::timers_in))]
fn timers_option(default: TimerTicks, words: &[&[u8]]) -> Option<TimerTicks>
    requires { AreTicks default }
    ensures option { result ≡ timers_in default (map (λ word. word.now) words.now) }
    ensures range { IfSome result (λ timers. AreTicks timers) }
{
    match words {
        [] => Some(default),
        [name, a, b, c, d] => {
            if *name == b"timers".as_slice() {
                timers(a, b, c, d)
            } else {
                None
            }
        }
        _ => None,
    }
}

/// The parameters that options give; what isn't given is as in `default`.
#[tactic(auto, unfolding(crate::specs::Devices::params_in))]
fn params(default: EndParams, words: &[&[u8]]) -> Option<EndParams>
    requires { IsParams default }
    ensures params { result ≡ params_in default (map (λ word. word.now) words.now) }
    ensures in_range { IfSome result (λ params. IsParams params) }
{
    let (mtu, words) = mtu_option(default.mtu, words)?;
    let (acked, words) = mode_option(default.acked, words)?;
    let (last, words) = last_option(default.last, words)?;
    let ticks = timers_option(default.ticks, words)?;
    Some(EndParams {
        iids: default.iids,
        mtu,
        acked,
        last,
        ticks,
    })
}

/// The device of `device N DEVIID APPIID` with these options.
#[tactic(auto, unfolding(crate::specs::Devices::declared_device))]
fn declared_device(number: &[u8], dev: &[u8], app: &[u8], options: &[&[u8]]) -> Option<DeviceLine>
    ensures line { result ≡ declared_device number.now dev.now app.now (map (λ word. word.now) options.now) }
    ensures in_range { IfSome result (λ device. IsParams device.params) }
{
    let number = small_number(number)?;
    let iids = iids(dev, app)?;
    let params = params(EndParams::with_defaults(iids), options)?;
    Some(DeviceLine { number, params })
}

/// The device that a line of these words declares.
#[tactic(auto, unfolding(crate::specs::Devices::device_in))]
pub(crate) fn device(words: &[&[u8]]) -> Option<DeviceLine>
    ensures line { result ≡ device_in (map (λ word. word.now) words.now) }
    ensures in_range { IfSome result (λ device. IsParams device.params) }
{
    match words {
        [name, number, dev, app, options @ ..] => {
            if *name == b"device".as_slice() {
                declared_device(number, dev, app, options)
            } else {
                None
            }
        }
        _ => None,
    }
}
