//! The frames that each draw takes.

ghost use Rattle.std.specs.Prelude.{◌≡◌, ◌+◌, ◌*◌, ◌<◌, ◌≤◌, ◌^◌, length};
ghost use Rattle.load_maker.specs.Load.{
  packet_size,
  pieces,
  fits_frame,
  more_frames,
  draw_at,
  frames_before,
};

/// The bytes of a packet that fits one frame.
const MTU: u16 = 51;

/// How many frames a device has sent up, and its gateway down.
#[derive(Clone, Copy)]
pub(crate) struct Frames {
    pub up: u64,
    pub down: u64,
}

/// The bytes of the packet of a draw: 40 to 200.
#[tactic(auto, unfolding(crate::specs::Load::packet_size))]
pub(crate) fn packet_size(draw: u16) -> u16
    ensures size { result ≡ packet_size draw }
    ensures least { 40 ≤ result }
    ensures most { result ≤ 200 }
{
    40 + draw % 161
}

/// The frames in which a session sends the packet of a draw, with one more.
#[tactic(auto, unfolding(crate::specs::Load::pieces))]
pub(crate) fn pieces(draw: u16) -> u64
    ensures pieces { result ≡ pieces draw }
    ensures few { result ≤ 5 }
{
    let tiles = (u64::from(packet_size(draw)) + 1 + 9) / 10;
    (tiles - 1 + 4) / 5 + 1
}

/// Whether the packet of a draw fits one frame.
pub(crate) fn fits_frame(draw: u16) -> bool
    ensures { result ≡ fits_frame draw }
{
    packet_size(draw) <= MTU
}

impl Frames {
    /// These frames and those of one more draw.
    fn more(self, draw: u16) -> Frames
        requires up { self.up ≤ 1000 }
        requires down { self.down ≤ 1000 }
        ensures frames { result ≡ more_frames self draw }
        ensures up { result.up ≤ self.up + 5 }
        ensures down { result.down ≤ self.down + 1 }
    {
        if fits_frame(draw) {
            Frames {
                up: self.up + 1,
                down: self.down,
            }
        } else {
            Frames {
                up: self.up + pieces(draw),
                down: self.down + 1,
            }
        }
    }
}

/// The draw that a device takes in a round.
pub(crate) fn draw_at(draws: &[u16], devices: u16, round: u16, device: u16) -> u16
    requires within { round * devices + device < length draws.now }
    ensures { result ≡ draw_at draws.now devices round device }
{
    draws[usize::from(round) * usize::from(devices) + usize::from(device)]
}

/// The frames of a device before a round.
#[tactic(auto, using(crate::proofs::LoadLemmas::within))]
pub(crate) fn frames_before(draws: &[u16], devices: u16, round: u16, device: u16) -> Frames
    requires few { round ≤ 3 }
    requires all { length draws.now ≡ 3 * devices }
    requires device { device < devices }
    ensures frames { result ≡ frames_before draws.now devices device round }
    ensures up { result.up ≤ 15 }
    ensures down { result.down ≤ 3 }
{
    let mut frames = Frames { up: 0, down: 0 };
    for earlier in 0..round {
        frames = frames.more(draw_at(draws, devices, earlier, device));
    }
    frames
}
