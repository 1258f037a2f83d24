//! The rounds: an end in a state, byte strings, rest, and sessions.

use crate::dice::Dice;
use crate::ends::Setting;
use crate::frames::{Frames, random_frame, whole_frames};
use crate::states::{STATES, State, bring};
use crate::tally::Tally;
use crate::transfer::{comes_to_rest, record, runs};
use editions::Edition;
use end_core::End;
use schc_ids::{LastTile, Role};
use std::alloc::{AllocError, Global};
use std::sync::Arc;

/// How many rounds there are for each setting, role and state, and how many byte strings in one.
const ROUNDS: u32 = 25;

const STRINGS: u32 = 25;

const SEED: u64 = 8724;

/// What the rounds share.
#[derive(Clone, Copy)]
struct Bench<'a> {
    alloc: Global,
    setting: Setting,
    edition: &'a Arc<Edition>,
    frames: &'a Frames,
}

/// A round is for this end in this state.
#[derive(Clone, Copy)]
struct Subject {
    role: Role,
    state: State,
}

/// The settings with a rule or without.
fn settings(ruled: bool) -> [Setting; 4] {
    let first = Setting {
        acked: true,
        last: LastTile::InAll1,
        ruled,
    };
    let second = Setting {
        last: LastTile::InRegular,
        ..first
    };
    [
        first,
        second,
        Setting {
            acked: false,
            ..first
        },
        Setting {
            acked: false,
            ..second
        },
    ]
}

/// What all byte strings mean, in all settings; the edition is the one that ends with a rule have.
///
/// # Errors
/// Want of memory.
pub fn probe(alloc: Global, edition: &Arc<Edition>) -> Result<Tally, AllocError> {
    let mut dice = Dice::new(SEED);
    let mut tally = Tally::new();
    for ruled in [false, true] {
        for setting in settings(ruled) {
            probe_setting(alloc, setting, edition, &mut dice, &mut tally)?;
        }
    }
    Ok(tally)
}

/// The rounds of all states at both ends.
fn probe_setting(
    alloc: Global,
    setting: Setting,
    edition: &Arc<Edition>,
    dice: &mut Dice,
    tally: &mut Tally,
) -> Result<(), AllocError> {
    let mut frames = whole_frames(alloc)?;
    record_both(alloc, setting, edition, &mut frames)?;
    let bench = Bench {
        alloc,
        setting,
        edition,
        frames: &frames,
    };
    for state in STATES {
        for role in [Role::Device, Role::Gateway] {
            probe_state(&bench, Subject { role, state }, dice, tally)?;
        }
    }
    Ok(())
}

fn probe_state(
    bench: &Bench<'_>,
    subject: Subject,
    dice: &mut Dice,
    tally: &mut Tally,
) -> Result<(), AllocError> {
    for _ in 0..ROUNDS {
        bench.round(subject, dice, tally)?;
    }
    Ok(())
}

/// The frames of a session from each end to the other.
fn record_both(
    alloc: Global,
    setting: Setting,
    edition: &Arc<Edition>,
    frames: &mut Frames,
) -> Result<(), AllocError> {
    let mut device = setting.new_end(alloc, Role::Device, edition)?;
    let done = record_with(alloc, setting, edition, &mut device, frames);
    drop(device);
    done
}

fn record_with(
    alloc: Global,
    setting: Setting,
    edition: &Arc<Edition>,
    device: &mut End,
    frames: &mut Frames,
) -> Result<(), AllocError> {
    let mut gateway = setting.new_end(alloc, Role::Gateway, edition)?;
    let up = record(device, &mut gateway, frames);
    let down = record(&mut gateway, device, frames);
    drop(gateway);
    up?;
    down
}

impl Bench<'_> {
    /// A round with two new ends.
    fn round(
        &self,
        subject: Subject,
        dice: &mut Dice,
        tally: &mut Tally,
    ) -> Result<(), AllocError> {
        let mut near = self.new_end(subject.role)?;
        let done = self.round_with(&mut near, subject, dice, tally);
        drop(near);
        done
    }

    fn round_with(
        &self,
        near: &mut End,
        subject: Subject,
        dice: &mut Dice,
        tally: &mut Tally,
    ) -> Result<(), AllocError> {
        let mut far = self.new_end(subject.role.other())?;
        let done = self.round_of(near, &mut far, subject, dice, tally);
        drop(far);
        done
    }

    fn new_end(&self, role: Role) -> Result<End, AllocError> {
        self.setting.new_end(self.alloc, role, self.edition)
    }

    /// The near end is brought into the state and is handed byte strings; both come to rest; and a
    /// packet goes each way.
    fn round_of(
        &self,
        near: &mut End,
        far: &mut End,
        subject: Subject,
        dice: &mut Dice,
        tally: &mut Tally,
    ) -> Result<(), AllocError> {
        bring(self.alloc, near, far, subject.role, subject.state)?;
        self.hand_strings(near, dice, tally)?;
        let rests = comes_to_rest(near)? && comes_to_rest(far)?;
        tally.add_session(runs(near, far)? && rests);
        tally.add_session(runs(far, near)? && rests);
        Ok(())
    }

    fn hand_strings(
        &self,
        end: &mut End,
        dice: &mut Dice,
        tally: &mut Tally,
    ) -> Result<(), AllocError> {
        for _ in 0..STRINGS {
            let frame = random_frame(self.alloc, dice, self.frames)?;
            tally.add_string();
            tally.add_note(end.take(&frame)?.note);
        }
        Ok(())
    }
}
