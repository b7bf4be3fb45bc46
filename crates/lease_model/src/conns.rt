// Held numbers and connections. Each look-up looks at each of them.
ghost use Rattle.std.specs.Prelude.{◌≡◌, filter, not, ◌==◌, ◌&&◌};
ghost use Rattle.std.specs.List.{list_any};
ghost use Rattle.lease_model.specs.Books.{clashes, is_agents, is_in, is_of, is_used, is_within, private_key, public_key, row_is_of, same_conn};
ghost use Rattle.lease_model.specs.Rows.{row_at};

use crate::row::BookRow;
use crate::rows::{row_at, rule_of};
use wire_core::{Conn, FlowKey, Ip4, LeaseRules, MachineRule, Range};

/// Whether the number is one of these.
pub fn is_in(n: u64, numbers: &[u64]) -> bool
    ensures { result ≡ is_in n numbers.now }
{
    numbers.iter().any(|m| *m == n)
}

/// The number leaves.
pub fn remove_number(numbers: &mut Vec<u64>, n: u64)
    ensures { numbers.new.items ≡ filter (λ m. not (m == n)) numbers.old.items }
{
    numbers.retain(|m| *m != n);
}

fn is_within(r: Range, c: Conn) -> bool
    ensures { result ≡ is_within r c }
{
    c.vip == r.vip && r.start <= c.port && u32::from(c.port) <= u32::from(r.start) + 7
}

fn any_within(conns: &[Conn], r: Range) -> bool
    ensures { result ≡ list_any (is_within r) conns.now }
{
    conns.iter().any(|c| is_within(r, *c))
}

/// Whether a connection is in the row's range.
pub fn is_used(conns: &[Conn], row: Option<BookRow>) -> bool
    ensures { result ≡ is_used conns.now row }
{
    match row {
        None => false,
        Some(row) => any_within(conns, row.range),
    }
}

fn public_key(c: Conn) -> FlowKey
    ensures { result ≡ public_key c }
{
    FlowKey {
        src: c.vip,
        dst: c.remote,
        sport: c.port,
        dport: c.rport,
        proto: c.proto,
    }
}

fn private_key(c: Conn) -> FlowKey
    ensures { result ≡ private_key c }
{
    FlowKey {
        src: c.machine,
        dst: c.remote,
        sport: c.sport,
        dport: c.rport,
        proto: c.proto,
    }
}

fn clashes(c: Conn, d: Conn) -> bool
    ensures { result ≡ clashes c d }
{
    public_key(d) == public_key(c) || private_key(d) == private_key(c)
}

/// Whether one of the connections has one of this one's keys.
pub fn any_clashes(conns: &[Conn], c: Conn) -> bool
    ensures { result ≡ list_any (clashes c) conns.now }
{
    conns.iter().any(|d| clashes(c, *d))
}

fn same_conn(c: Conn, d: Conn) -> bool
    ensures { result ≡ same_conn c d }
{
    public_key(d) == public_key(c) && private_key(d) == private_key(c)
}

/// Whether the connection is one of these.
pub fn is_open(conns: &[Conn], c: Conn) -> bool
    ensures { result ≡ list_any (same_conn c) conns.now }
{
    conns.iter().any(|d| same_conn(c, *d))
}

/// The connection leaves.
pub fn remove_conn(conns: &mut Vec<Conn>, c: Conn)
    ensures { conns.new.items ≡ filter (λ d. not (same_conn c d)) conns.old.items }
{
    conns.retain(|d| !same_conn(c, *d));
}

fn is_of(agent: u16, rule: Option<MachineRule>) -> bool
    ensures { result ≡ is_of agent rule }
{
    match rule {
        None => false,
        Some(rule) => rule.agent == agent,
    }
}

fn is_agents(rules: &LeaseRules, agent: u16, machine: Ip4) -> bool
    ensures { result ≡ is_agents rules.now agent machine }
{
    is_of(agent, rule_of(rules.machines.as_slice(), machine))
}

fn row_is_of(rules: &LeaseRules, agent: u16, row: Option<BookRow>) -> bool
    ensures { result ≡ row_is_of rules.now agent row }
{
    match row {
        None => false,
        Some(row) => is_agents(rules, agent, row.machine),
    }
}

/// The numbers of the agent's machines leave.
pub fn lose_numbers(numbers: &mut Vec<u64>, rules: &LeaseRules, rows: &[BookRow], agent: u16)
    ensures { numbers.new.items
        ≡ filter (λ n. not (row_is_of rules.now agent (row_at rows.now n))) numbers.old.items }
{
    numbers.retain(|n| !row_is_of(rules, agent, row_at(rows, *n)));
}

/// The connections of the agent's machines leave.
pub fn lose_conns(conns: &mut Vec<Conn>, rules: &LeaseRules, agent: u16)
    ensures { conns.new.items ≡ filter (λ c. not (is_agents rules.now agent c.machine)) conns.old.items }
{
    conns.retain(|c| !is_agents(rules, agent, c.machine));
}
