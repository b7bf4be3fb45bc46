use wire_core::{Ip4, Value};

/// A message between nodes. Times of a node's life are its boots, from 1; a lease is named by a number `n`; `start` is
/// the first of a range's eight ports, a multiple of 8 from 1024 to 65528.
#[derive(Debug, Drop)]
pub enum Message<'a> {
    /// Replica to replica: promise to follow no ballot below this one.
    Prepare {
        ballot: u64,
    },
    /// Replica to replica: promised, with the length of its log and the vote at its end. A vote of ballot 0 is none,
    /// and the value is there exactly where the vote isn't 0.
    Promise {
        ballot: u64,
        length: u64,
        vote: u64,
        value: Option<Value<'a>>,
    },
    /// Replica to replica: accept this value for the slot.
    Accept {
        ballot: u64,
        slot: u64,
        value: Value<'a>,
    },
    /// Replica to replica: accepted.
    Accepted {
        ballot: u64,
        slot: u64,
    },
    /// Replica to replica: the ballot is below the one that was promised.
    Refuse {
        ballot: u64,
        promised: u64,
    },
    /// Replica to replica: the slot's value was chosen at this ballot.
    Chosen {
        slot: u64,
        ballot: u64,
        value: Value<'a>,
    },
    /// Replica to replica: tell me what was chosen for the slot.
    Fetch {
        slot: u64,
    },
    /// Agent to replica: a range for the machine, please; `seq` counts the machine's requests.
    Ask {
        boot: u64,
        machine: Ip4,
        seq: u64,
    },
    /// Replica to agent: lease `n` of this range is the machine's.
    Grant {
        boot: u64,
        machine: Ip4,
        seq: u64,
        n: u64,
        vip: Ip4,
        start: u16,
    },
    /// Replica to agent: no range. With reason 1 none was free at the place `number` of the log, with reason 2 the
    /// machine had `number` of them, as many as it may.
    Denied {
        boot: u64,
        machine: Ip4,
        seq: u64,
        reason: u8,
        number: u64,
    },
    /// Agent to replica: lease `n` is given back.
    Return {
        boot: u64,
        n: u64,
    },
    /// Replica to agent: lease `n` ends.
    Returned {
        boot: u64,
        n: u64,
    },
    /// Agent to replica: I run in this boot.
    AgentUp {
        boot: u64,
    },
    /// Replica to agent: your boot is known.
    AgentKnown {
        boot: u64,
    },
    /// Mux to replica: I run in this boot, and obey no epoch below this one.
    MuxHello {
        boot: u64,
        epoch: u64,
    },
    /// Replica to mux: packets to the range go to the machine.
    Program {
        epoch: u64,
        boot: u64,
        n: u64,
        vip: Ip4,
        start: u16,
        machine: Ip4,
    },
    /// Mux to replica: done.
    Programmed {
        epoch: u64,
        boot: u64,
        n: u64,
    },
    /// Replica to mux: packets to the range go to no machine.
    Unprogram {
        epoch: u64,
        boot: u64,
        n: u64,
        vip: Ip4,
        start: u16,
    },
    /// Mux to replica: done.
    Unprogrammed {
        epoch: u64,
        boot: u64,
        n: u64,
    },
    /// Mux to replica: the epoch or the boot isn't mine; I am in this boot, and obey no epoch below `kept`.
    MuxRefuse {
        epoch: u64,
        boot: u64,
        kept: u64,
    },
    /// Replica to replica: I am primary at this ballot, with a log of this length.
    Lead {
        ballot: u64,
        length: u64,
    },
    /// Mux to mux: a connection from `src` to `dst` is established, and `machine` serves it.
    RedirectAsk {
        src: Ip4,
        sport: u16,
        dst: Ip4,
        dport: u16,
        machine: Ip4,
    },
    /// Mux to agent: the two machines of the connection, which may now talk without a mux. Side 0 is for the opener's
    /// agent, with the number of the opener's lease, side 1 for the server's.
    Redirect {
        side: u8,
        n: u64,
        src: Ip4,
        sport: u16,
        dst: Ip4,
        dport: u16,
        opener: Ip4,
        server: Ip4,
    },
}
