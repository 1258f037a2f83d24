//! Devices shared out among workers, each of which runs those of its group.

ghost use Rattle.std.specs.Prelude.{◌≡◌, ◌≤◌, ◌<◌, ◌/◌, ◌+◌, ◌^◌, ◌++◌, cond, nat_lt, ℕ, length};
ghost use Rattle.std.specs.Prelude.{map, vec_len, slice_index_or, Some, All, OnOk, IfOk};
ghost use Rattle.std.specs.List.{AllByRecursion};
ghost use Rattle.script_lang.specs.Ranges.{HaveParams};
ghost use Rattle.gw_top.specs.Words.{AreWorkers};
ghost use Rattle.gw_top.specs.Shares.{share_of};
ghost use Rattle.gw_top.specs.Dealing.{share_from};
ghost use Rattle.gw_top.specs.Groups.{joined, IsEven, IsShared, shares_in};

use crate::dealing::{Dealt, deal};
use crate::queues::Queue;
use crate::shares::{Job, jobs, shares};
use rule_model::DeviceLine;
use script_lang::ScriptEvent;
use std::alloc::{AllocError, Global};
use std::thread;
use std::thread::Threads;

/// How many devices the group at this place has: the first ones have one more.
fn group_size(size: usize, longer: usize, place: usize) -> usize
    requires { size < 2 ^ 63 }
    ensures exact { result ≡ size + cond (nat_lt place longer) 1 0 }
    ensures least { size ≤ result }
    ensures most { result ≤ size + 1 }
{
    if place < longer { size + 1 } else { size }
}

/// The devices in so many groups, in order. Their sizes differ by at most one.
///
/// # Errors
/// Want of memory.
pub(crate) fn groups(
    alloc: Global,
    devices: &[DeviceLine],
    workers: usize,
) -> Result<Vec<&[DeviceLine]>, AllocError>
    requires { AreWorkers workers }
    ensures joined { IfOk result (λ groups.
        joined (map (λ group. group.now) groups.items) ≡ devices.now) }
    ensures count { IfOk result (λ groups. vec_len groups ≡ workers) }
    ensures even { IfOk result (λ groups.
        AllByRecursion (λ group. IsEven (length devices.now / workers) group.now) groups.items) }
{
    let size = devices.len() / workers;
    let longer = devices.len() % workers;
    let mut left = devices;
    let mut groups = Vec::new(alloc);
    for place in 0..workers {
        let (group, rest) = left.split_at(group_size(size, longer, place));
        groups.push(group)?;
        left = rest;
    }
    Ok(groups)
}

/// The jobs of the devices of each group.
///
/// # Errors
/// Want of memory.
fn jobs_of_groups(
    alloc: Global,
    groups: &[&[DeviceLine]],
    dealt: &Dealt,
) -> Result<Vec<Vec<Job>>, AllocError>
    ensures { IfOk result (λ made.
        map (λ jobs. jobs.items) made.items ≡ map (λ group. group.now) groups.now) }
{
    let mut made = Vec::new(alloc);
    for group in groups {
        made.push(jobs(alloc, group, dealt)?)?;
    }
    Ok(made)
}

/// The shares of the devices of each group, as the workers make them.
///
/// # Errors
/// Want of memory.
fn by_group<R: Threads + Sync>(
    rt: &R,
    alloc: Global,
    groups: Vec<Vec<Job>>,
    dealt: &Dealt,
) -> Result<Vec<Result<Vec<(u16, Queue)>, AllocError>>, AllocError>
    requires { All (λ group. HaveParams group.items) groups.items }
    ensures count { IfOk result (λ made. vec_len made ≡ vec_len groups) }
    ensures shared { IfOk result (λ made.
        (i : ℕ) (group : _) (m : _)
        → i < vec_len groups
        → IsShared (share_from dealt.now)
        (slice_index_or groups.items i group).items
        (slice_index_or made.items i m)) }
{
    thread::map_vec(
        rt,
        groups,
        &|group: Vec<Job>| -> Result<Vec<(u16, Queue)>, AllocError>
            requires { HaveParams group.items }
            ensures { IfOk result (λ made.
                made.items ≡ map (share_from dealt.entry.now) group.items) }
        { shares(alloc, group, dealt) },
    )
}

/// Puts the shares of one more group behind the others.
fn append(all: &mut Vec<(u16, Queue)>, group: Vec<(u16, Queue)>) -> Result<(), AllocError>
    ensures { OnOk result (all.new.items ≡ all.old.items ++ group.items) }
{
    for share in group {
        all.push(share)?;
    }
    Ok(())
}

/// The shares of all groups, one after the other.
fn all_shares(
    alloc: Global,
    made: Vec<Result<Vec<(u16, Queue)>, AllocError>>,
) -> Result<Vec<(u16, Queue)>, AllocError>
    ensures { IfOk result (λ all. shares_in made.items ≡ Some all.items) }
{
    let mut all = Vec::new(alloc);
    for group in made {
        append(&mut all, group?)?;
    }
    Ok(all)
}

/// The shares of the devices, in order of declaration, made by so many workers.
///
/// # Errors
/// Want of memory.
pub(crate) fn shared<R: Threads + Sync>(
    rt: &R,
    alloc: Global,
    workers: usize,
    devices: &[DeviceLine],
    events: &[ScriptEvent],
) -> Result<Vec<(u16, Queue)>, AllocError>
    requires workers { AreWorkers workers }
    requires params { HaveParams devices.now }
    ensures { IfOk result (λ all. all.items ≡ map (share_of events.now) devices.now) }
{
    let groups = groups(alloc, devices, workers)?;
    let dealt = deal(alloc, devices, events)?;
    let jobs = jobs_of_groups(alloc, groups.as_slice(), &dealt)?;
    let made = by_group(rt, alloc, jobs, &dealt)?;
    let all = all_shares(alloc, made)?;
    Ok(all)
}
