//! The words of a call.

ghost use Rattle.std.specs.Prelude.{◌≡◌, ◌+◌, ◌<◌, ◌≤◌, ◌^◌, map, string_bytes, IfSome, IfOk};
ghost use Rattle.script_lang.specs.Text.{number_of};
ghost use Rattle.gw_top.specs.Words.{
  max_workers,
  AreWorkers,
  IsInLimits,
  count_of,
  reads_input,
  load_starts,
  with_workers,
  ended,
  workers_at,
  option_at,
  start_at,
  load_at,
  command_after,
  command_of,
};

use schc_ids::limits::MAX_DEVICES;

/// The most workers among which devices are shared out.
const MAX_WORKERS: u64 = 8;

/// How many starts a load can have: one for each state of its generator.
const LOAD_STARTS: u64 = 1 << 31;

/// What the program can be asked to do.
#[derive(Clone, Copy, Debug, PartialEq, Eq)]
pub(crate) enum Command {
    /// Look whether the editions of a context can be published.
    Check,
    /// Write packets by the last edition of a work file.
    Pack,
    /// Read packets by the last edition of a work file.
    Unpack,
    /// Run a script, with so many workers.
    Sim(usize),
    /// Run the load of so many devices whose generator starts there, with so many workers.
    Load {
        devices: u16,
        start: u32,
        workers: usize,
    },
}

impl Command {
    /// Whether the command reads its input: all but a load do.
    pub(crate) fn reads_input(&self) -> bool
        ensures { result ≡ reads_input self.now }
    {
        !matches!(self, Command::Load { .. })
    }
}

/// The number below a limit that a word spells.
#[tactic(auto, unfolding(script_lang::specs::Text::number_of))]
fn number(limit: u64, word: &str) -> Option<u64>
    ensures number { result ≡ number_of limit word.now }
    ensures below { IfSome result (λ n. n < limit) }
{
    let found = script_lang::number(word.as_bytes())?;
    if found < limit { Some(found) } else { None }
}

/// The number from 1 to `most` that a word spells.
#[tactic(auto, unfolding(crate::specs::Words::count_of, crate::specs::Words::from_one))]
fn count(most: u64, word: &str) -> Option<u64>
    requires { most < 2 ^ 63 }
    ensures count { result ≡ count_of most word.now }
    ensures within { IfSome result (λ n. (1 ≤ n) × (n ≤ most)) }
{
    let found = number(most + 1, word)?;
    if 1 <= found { Some(found) } else { None }
}

/// The command with so many workers.
fn with_workers(command: Command, workers: usize) -> Command
    requires limits { IsInLimits command }
    requires workers { AreWorkers workers }
    ensures command { result ≡ with_workers command workers }
    ensures limits { IsInLimits result }
{
    match command {
        Command::Check => Command::Check,
        Command::Pack => Command::Pack,
        Command::Unpack => Command::Unpack,
        Command::Sim(_) => Command::Sim(workers),
        Command::Load { devices, start, .. } => Command::Load {
            devices,
            start,
            workers,
        },
    }
}

/// The command, where no word stands at this place.
///
/// # Errors
/// The place.
fn ended(place: u32, command: Command, words: &[String]) -> Result<Command, u32>
    requires { IsInLimits command }
    ensures command { result ≡ ended place command (map string_bytes words.now) }
    ensures limits { IfOk result IsInLimits }
{
    match words {
        [] => Ok(command),
        [_, ..] => Err(place),
    }
}

/// The command with the number of workers that stands at this place.
///
/// # Errors
/// The place of the first word that is outside the grammar, or one past the last where one lacks.
#[tactic(auto, unfolding(crate::specs::Words::workers_read))]
fn workers_at(place: u32, command: Command, words: &[String]) -> Result<Command, u32>
    requires limits { IsInLimits command }
    requires place { place < 8 }
    ensures command { result ≡ workers_at place command (map string_bytes words.now) }
    ensures limits { IfOk result IsInLimits }
{
    match words {
        [] => Err(place),
        [word, rest @ ..] => match count(MAX_WORKERS, word.as_str()) {
            Some(workers) => ended(place + 1, with_workers(command, workers as usize), rest),
            None => Err(place),
        },
    }
}

/// The command with the option that stands at this place, if one does.
///
/// # Errors
/// The place of the first word that is outside the grammar, or one past the last where one lacks.
fn option_at(place: u32, command: Command, words: &[String]) -> Result<Command, u32>
    requires limits { IsInLimits command }
    requires place { place < 7 }
    ensures command { result ≡ option_at place command (map string_bytes words.now) }
    ensures limits { IfOk result IsInLimits }
{
    match words {
        [] => Ok(command),
        [word, rest @ ..] => match word.as_str() {
            "--workers" => workers_at(place + 1, command, rest),
            _ => Err(place),
        },
    }
}

/// The load of so many devices with the start that stands at the third place, and an option after
/// it.
///
/// # Errors
/// The place of the first word that is outside the grammar, or one past the last where one lacks.
#[tactic(auto, unfolding(crate::specs::Words::start_read))]
fn start_at(devices: u16, words: &[String]) -> Result<Command, u32>
    requires least { 1 ≤ devices }
    requires most { devices ≤ 1024 }
    ensures command { result ≡ start_at devices (map string_bytes words.now) }
    ensures limits { IfOk result IsInLimits }
{
    match words {
        [] => Err(3),
        [word, rest @ ..] => match number(LOAD_STARTS, word.as_str()) {
            Some(start) => {
                let load = Command::Load {
                    devices,
                    start: start as u32,
                    workers: 1,
                };
                option_at(4, load, rest)
            }
            None => Err(3),
        },
    }
}

/// The load whose number of devices stands at the second place.
///
/// # Errors
/// The place of the first word that is outside the grammar, or one past the last where one lacks.
#[tactic(auto, unfolding(crate::specs::Words::devices_read))]
fn load_at(words: &[String]) -> Result<Command, u32>
    ensures command { result ≡ load_at (map string_bytes words.now) }
    ensures limits { IfOk result IsInLimits }
{
    match words {
        [] => Err(2),
        [word, rest @ ..] => match count(MAX_DEVICES as u64, word.as_str()) {
            Some(devices) => start_at(devices as u16, rest),
            None => Err(2),
        },
    }
}

/// The command of these words, the first of which names it.
///
/// # Errors
/// The place of the first word that is outside the grammar, or one past the last where one lacks.
#[tactic(auto, unfolding(crate::specs::Words::command_after))]
fn command_after(word: &str, words: &[String]) -> Result<Command, u32>
    ensures command { result ≡ command_after word.now (map string_bytes words.now) }
    ensures limits { IfOk result IsInLimits }
{
    match word {
        "check" => ended(2, Command::Check, words),
        "pack" => ended(2, Command::Pack, words),
        "unpack" => ended(2, Command::Unpack, words),
        "sim" => option_at(2, Command::Sim(1), words),
        "load" => load_at(words),
        _ => Err(1),
    }
}

/// The command that the words name.
///
/// # Errors
/// The place of the first word that is outside the grammar, from 1, or one past the last word where
/// one lacks.
#[tactic(auto, unfolding(crate::specs::Words::command_of))]
pub(crate) fn command_in(words: &[String]) -> Result<Command, u32>
    ensures command { result ≡ command_of (map string_bytes words.now) }
    ensures limits { IfOk result IsInLimits }
{
    match words {
        [] => Err(1),
        [word, rest @ ..] => command_after(word.as_str(), rest),
    }
}
