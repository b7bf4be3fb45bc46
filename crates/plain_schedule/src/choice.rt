ghost use Rattle.std.specs.Prelude.{◌≡◌, ◌≤◌, ◌+◌, find, IfOk, OnErr};
ghost use Rattle.wire_core.specs.declared.cause.DropCause.TheVariants.{NoLease};
ghost use Rattle.plain_schedule.specs.FullLeases.{AreFull, end_of, plain};
ghost use Rattle.plain_schedule.specs.Kept.{IsKept, IsSound};
ghost use Rattle.plain_schedule.specs.Packets.{eight, first_free, incoming, is_free, opens, outgoing, takes, through, with_private, with_public};

use crate::connections::{Connection, Connections};
use crate::full_leases::{FullLeases, RemoteEnd};
use lease_spec::Row;
use port_leases::Table;
use wire_core::{DropCause, FlowKey, NoMemory};

/// The connection with a private key.
fn with_private(table: &Table, opened: &Connections, key: &FlowKey) -> Option<Connection>
    ensures { result ≡ with_private table.now opened.now key.now }
{
    let connection = opened.newest_private(key)?;
    if table.row(connection.n).is_some() {
        Some(connection)
    } else {
        None
    }
}

/// The connection with a public key.
fn with_public(table: &Table, opened: &Connections, key: &FlowKey) -> Option<Connection>
    ensures { result ≡ with_public table.now opened.now key.now }
{
    let connection = opened.newest_public(key)?;
    if table.row(connection.n).is_some() {
        Some(connection)
    } else {
        None
    }
}

/// The connection that the `i`-th port of a lease would carry.
fn through(row: &Row, key: &FlowKey, i: u16) -> Connection
    ensures { result ≡ through row.now key.now i }
{
    Connection {
        private: *key,
        public: FlowKey {
            src: row.range.vip,
            sport: row.range.start.saturating_add(i),
            ..*key
        },
        n: row.n,
    }
}

/// The first free port of a lease.
fn free_in(table: &Table, opened: &Connections, key: &FlowKey, row: &Row) -> Option<Connection>
    ensures { result ≡ find (is_free table.now opened.now) (eight key.now row.now) }
{
    for i in 0..8 {
        let connection = through(row, key, i);
        if with_public(table, opened, &connection.public).is_none() {
            return Some(connection);
        }
    }
    None
}

/// The first free port over the machine's leases, those up to this number being full. Beside it the number up to which
/// they are full after all.
fn first_free(
    table: &Table,
    opened: &Connections,
    key: &FlowKey,
    full: u64,
) -> (Option<Connection>, u64)
    requires sound { IsSound (plain table.now opened.now) }
    requires full { AreFull (plain table.now opened.now) (end_of key.now) full }
    ensures found { result.0 ≡ first_free table.now opened.now key.now }
    ensures full { AreFull (plain table.now opened.now) (end_of key.now) result.1 }
{
    let mut above = full;
    while let Some(row) = table.next_row_of(key.src, above) {
        let found = free_in(table, opened, key, &row);
        if found.is_some() {
            return (found, above);
        }
        above = row.n;
    }
    (None, above)
}

/// The greatest number that is known to be a full lease's and has a row, up to this one; 0 for none. A lease that has
/// ended is passed once by each remote end that it was full for.
fn standing(table: &Table, full: &FullLeases, n: u64) -> u64
    ensures { result ≤ n }
{
    let mut at = n;
    while at > 0 && table.row(at).is_none() {
        at = full.before(at);
    }
    at
}

/// The first free port over the machine's leases. Full leases that it comes by are known from then on, so that each
/// costs one look in all.
fn find_port(
    table: &Table,
    opened: &Connections,
    full: &mut FullLeases,
    key: &FlowKey,
) -> Result<Option<Connection>, NoMemory>
    requires { IsKept (plain table.now opened.now) full.old }
    ensures found { IfOk result (λ found. found ≡ first_free table.now opened.now key.now) }
    ensures kept { IsKept (plain table.now opened.now) full.new }
{
    let end = RemoteEnd::of(key);
    let known = standing(table, full, full.up_to(end));
    let (found, above) = first_free(table, opened, key, known);
    full.set(end, known, above)?;
    Ok(found)
}

/// Opens the connection that was found.
fn open_found(
    opened: &mut Connections,
    found: Option<Connection>,
) -> Result<Result<Connection, DropCause>, NoMemory>
    ensures ok { IfOk result (λ taken. (opened.new, taken) ≡ opens opened.old found) }
    ensures err { OnErr result (opened.new ≡ opened.old) }
{
    match found {
        None => Ok(Err(DropCause::NoLease)),
        Some(connection) => {
            opened.open(connection)?;
            Ok(Ok(connection))
        }
    }
}

/// The connection of a packet with this key. It is opened where there is none yet.
pub fn outgoing(
    table: &Table,
    opened: &mut Connections,
    full: &mut FullLeases,
    key: &FlowKey,
) -> Result<Result<Connection, DropCause>, NoMemory>
    requires { IsKept (plain table.now opened.old) full.old }
    ensures ok { IfOk result (λ taken. (opened.new, taken) ≡ outgoing table.now opened.old key.now) }
    ensures err { OnErr result (opened.new ≡ opened.old) }
    ensures kept { IsKept (plain table.now opened.new) full.new }
{
    if table.machine_rule(key.src).is_none() {
        return Ok(Err(DropCause::NotMine));
    }
    match with_private(table, opened, key) {
        Some(connection) => Ok(Ok(connection)),
        None => {
            let found = find_port(table, opened, full, key)?;
            open_found(opened, found)
        }
    }
}

/// The connection that a reply with this key belongs to.
pub fn incoming(
    table: &Table,
    opened: &Connections,
    ttl: u8,
    key: &FlowKey,
) -> Result<Connection, DropCause>
    ensures { result ≡ incoming table.now opened.now ttl key.now }
{
    if ttl <= 1 {
        return Err(DropCause::TtlOut);
    }
    with_public(table, opened, &key.reverse()).ok_or(DropCause::NoConnection)
}
