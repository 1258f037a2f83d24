//! Tables by which the rules that a packet may match are found.

ghost use Rattle.std.specs.Prelude.{ℕ, ◌≡◌, [], IfSome, IfOk, is_some};
ghost use Rattle.std.specs.List.{list_any};
ghost use Rattle.std.specs.Ordering.{nat_cmp};
ghost use Rattle.std.specs.BTreeMap.{get};
ghost use Rattle.editions.specs.Keys.{candidates, wants_only, ids_wanting};
ghost use Rattle.editions.specs.Tables.{ids_in, table_of_stack, table_of, IsIndexOf};

use crate::keys::{Candidate, Wanted, candidates, ids_wanting, ids_wanting_any};
use crate::listed::Listed;
use schc_ids::{Direction, Stack};
use std::alloc::{AllocError, Global};
use std::collections::BTreeMap;

/// The RuleIDs of one direction and one stack, ascending, by the value of the key field: beside
/// each value that some rule asks for, those of all rules that take it, and apart from these, those
/// of the rules that take every value.
#[derive(Drop)]
pub(crate) struct KeyTable {
    rows: BTreeMap<u64, Vec<u16>>,
    others: Vec<u16>,
}

/// The tables of one direction.
#[derive(Drop)]
pub(crate) struct StackTables {
    ip: KeyTable,
    ip_udp: KeyTable,
    ip_udp_coap: KeyTable,
}

/// The tables of both directions.
#[derive(Drop)]
pub(crate) struct Index {
    up: StackTables,
    down: StackTables,
}

/// For each key that some candidate asks for, the RuleIDs of those that take it.
fn rows(alloc: Global, these: &[Candidate]) -> Result<BTreeMap<u64, Vec<u16>>, AllocError>
    ensures ids { IfOk result (λ rows. (key : ℕ) → IfSome (get nat_cmp rows key) (λ ids. ids.items ≡ ids_wanting key these.now)) }
    ensures keys { IfOk result (λ rows. (key : ℕ) → is_some (get nat_cmp rows key) ≡ list_any (λ c. wants_only key c.wanted) these.now) }
{
    let mut rows = BTreeMap::new(alloc);
    for candidate in these {
        if let Wanted::Only(key) = candidate.wanted {
            let ids = ids_wanting(alloc, these, key)?;
            rows.insert(key, ids)?;
        }
    }
    Ok(rows)
}

impl KeyTable {
    fn empty(alloc: Global) -> KeyTable
        ensures { (key : ℕ) → ids_in result key ≡ [] }
    {
        KeyTable {
            rows: BTreeMap::new(alloc),
            others: Vec::new(alloc),
        }
    }

    fn of(alloc: Global, these: &[Candidate]) -> Result<KeyTable, AllocError>
        ensures { IfOk result (λ table. (key : ℕ) → ids_in table key ≡ ids_wanting key these.now) }
    {
        let rows = rows(alloc, these)?;
        let others = ids_wanting_any(alloc, these)?;
        Ok(KeyTable { rows, others })
    }

    fn ids(&self, key: u64) -> &[u16]
        ensures { result.now ≡ ids_in self.now key }
    {
        match self.rows.get(&key) {
            Some(ids) => ids.as_slice(),
            None => self.others.as_slice(),
        }
    }
}

fn table(
    alloc: Global,
    rules: &[Listed],
    direction: Direction,
    stack: Stack,
) -> Result<KeyTable, AllocError>
    ensures { IfOk result (λ table. (key : ℕ) → ids_in table key ≡ ids_wanting key (candidates direction stack rules.now)) }
{
    let these = candidates(alloc, rules, direction, stack)?;
    KeyTable::of(alloc, these.as_slice())
}

impl StackTables {
    fn empty(alloc: Global) -> StackTables
        ensures { (headers : Stack) (key : ℕ) → ids_in (table_of_stack result headers) key ≡ [] }
    {
        StackTables {
            ip: KeyTable::empty(alloc),
            ip_udp: KeyTable::empty(alloc),
            ip_udp_coap: KeyTable::empty(alloc),
        }
    }

    fn of(alloc: Global, rules: &[Listed], direction: Direction) -> Result<StackTables, AllocError>
        ensures { IfOk result (λ tables. (headers : Stack) (key : ℕ) → ids_in (table_of_stack tables headers) key ≡ ids_wanting key (candidates direction headers rules.now)) }
    {
        let ip = table(alloc, rules, direction, Stack::Ip)?;
        let ip_udp = table(alloc, rules, direction, Stack::IpUdp)?;
        let ip_udp_coap = table(alloc, rules, direction, Stack::IpUdpCoap)?;
        Ok(StackTables {
            ip,
            ip_udp,
            ip_udp_coap,
        })
    }

    fn of_stack(&self, stack: Stack) -> &KeyTable
        ensures { result.now ≡ table_of_stack self.now stack }
    {
        match stack {
            Stack::Ip => &self.ip,
            Stack::IpUdp => &self.ip_udp,
            Stack::IpUdpCoap => &self.ip_udp_coap,
        }
    }
}

impl Index {
    /// The tables of no rules. It takes no memory.
    pub(crate) fn empty(alloc: Global) -> Index
        ensures { IsIndexOf [] result }
    {
        Index {
            up: StackTables::empty(alloc),
            down: StackTables::empty(alloc),
        }
    }

    /// The tables of the rules, which stand in ascending order of RuleID.
    ///
    /// # Errors
    /// Want of memory.
    pub(crate) fn of(alloc: Global, rules: &[Listed]) -> Result<Index, AllocError>
        ensures { IfOk result (λ index. IsIndexOf rules.now index) }
    {
        let up = StackTables::of(alloc, rules, Direction::Up)?;
        let down = StackTables::of(alloc, rules, Direction::Down)?;
        Ok(Index { up, down })
    }

    /// The RuleIDs of the rules of the stack that may match a packet of this direction with this
    /// value in its key field.
    pub(crate) fn ids(&self, direction: Direction, stack: Stack, key: u16) -> &[u16]
        ensures { result.now ≡ ids_in (table_of self.now direction stack) key }
    {
        let tables = match direction {
            Direction::Up => &self.up,
            Direction::Down => &self.down,
        };
        tables.of_stack(stack).ids(u64::from(key))
    }
}
