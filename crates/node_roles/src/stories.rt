// The lives of a replica, a mux and an agent: what comes, what is written, and what is said.
use wire_core::{Input, Ip4, NodeId, Socket};

/// One mux, one agent with one machine, and one VIP.
pub const SMALL: &str =
    r#"{"version":1,"router":"10.7.0.1:7000","replicas":["10.0.0.1:7000","10.0.0.2:7000",
"10.0.0.3:7000","10.0.0.4:7000","10.0.0.5:7000"],"muxes":["10.9.0.1:7000"],"agents":[{"socket":"10.8.0.1:7000",
"machines":[{"address":"10.1.0.4","attach":"10.1.0.4:9000"}]}],"vips":[{"address":"192.0.2.10","low":1024,
"high":65535,"snat":["10.1.0.4"],"endpoints":[]}],"limit":16,"timers":{"lead_silent":1000,"mux_silent":5000,
"ask_retry":500,"flow_idle":60000,"range_idle":30000}}"#;

/// The same bytes to each of some sockets, in order.
#[derive(Clone, Copy)]
pub struct Told<'a> {
    pub to: &'a [Socket],
    pub bytes: &'a [u8],
}

/// An input, whether it makes the node write an entry, and what the node says then.
#[derive(Clone, Copy)]
pub struct Line<'a> {
    pub input: Input<'a>,
    pub writes: bool,
    pub told: &'a [Told<'a>],
}

/// A node's life from its first opening on, and the entries of its journal at the end, its Boot first. It is opened
/// again, in boot 2 unless it finds nothing, and is asked: what it answers goes by the number of entries that it found.
#[derive(Clone, Copy)]
pub struct Story<'a> {
    pub who: NodeId,
    pub lines: &'a [Line<'a>],
    pub entries: &'a [&'a [u8]],
    pub boot_2: &'a [u8],
    pub asked: &'a [Input<'a>],
    pub answers: &'a [&'a [Told<'a>]],
}

const REPLICA_0: Socket = Socket {
    ip: Ip4(0x0a000001),
    port: 7000,
};

const REPLICA_1: Socket = Socket {
    ip: Ip4(0x0a000002),
    port: 7000,
};

const REPLICA_2: Socket = Socket {
    ip: Ip4(0x0a000003),
    port: 7000,
};

const REPLICA_3: Socket = Socket {
    ip: Ip4(0x0a000004),
    port: 7000,
};

const REPLICA_4: Socket = Socket {
    ip: Ip4(0x0a000005),
    port: 7000,
};

const AGENT: Socket = Socket {
    ip: Ip4(0x0a080001),
    port: 7000,
};

/// Where the machine's packets come from.
const ATTACH: Socket = Socket {
    ip: Ip4(0x0a010004),
    port: 9000,
};

const ROUTER: Socket = Socket {
    ip: Ip4(0x0a070001),
    port: 7000,
};

pub const FIVE: &[Socket] = &[REPLICA_0, REPLICA_1, REPLICA_2, REPLICA_3, REPLICA_4];

const OTHERS: &[Socket] = &[REPLICA_1, REPLICA_2, REPLICA_3, REPLICA_4];

// ---- a replica's entries and messages; the value is a Reserve for the machine

/// Boots 1 and 2 of replica 0, the promise of 5, the vote for the value at 5, and the same learned.
const REPLICA_BOOT: &[u8] = b"\x01\x01\x01\x00\x00\x00\x00\x00\x00\x00\x00\x00\x01";

const REPLICA_BOOT_2: &[u8] = b"\x01\x01\x01\x00\x00\x00\x00\x00\x00\x00\x00\x00\x02";

const PROMISED_5: &[u8] = b"\x02\x00\x00\x00\x00\x00\x00\x00\x05";

const VOTED_5: &[u8] = b"\
    \x03\x00\x00\x00\x00\x00\x00\x00\x05\x01\x01\x00\x00\x00\x00\x00\x00\x00\x00\x00\x01\x0a\x01\x00\
    \x04\x00\x00\x00\x00\x00\x00\x00\x01\
    ";

const LEARNED_5: &[u8] = b"\
    \x04\x00\x00\x00\x00\x00\x00\x00\x05\x01\x01\x00\x00\x00\x00\x00\x00\x00\x00\x00\x01\x0a\x01\x00\
    \x04\x00\x00\x00\x00\x00\x00\x00\x01\
    ";

/// Prepare 5, and its Promise by a replica that has nothing.
const PREPARE_5: &[u8] = b"\x01\x01\x01\x00\x00\x00\x00\x00\x00\x00\x05";

const PROMISE_5: &[u8] = b"\
    \x01\x01\x02\x00\x00\x00\x00\x00\x00\x00\x05\x00\x00\x00\x00\x00\x00\x00\x00\x00\x00\x00\x00\x00\
    \x00\x00\x00\
    ";

/// Accept and Accepted at 5 in slot 0, and slot 0 chosen.
const ACCEPT_5: &[u8] = b"\
    \x01\x01\x03\x00\x00\x00\x00\x00\x00\x00\x05\x00\x00\x00\x00\x00\x00\x00\x00\x01\x01\x00\x00\x00\
    \x00\x00\x00\x00\x00\x00\x01\x0a\x01\x00\x04\x00\x00\x00\x00\x00\x00\x00\x01\
    ";

const ACCEPTED_5: &[u8] =
    b"\x01\x01\x04\x00\x00\x00\x00\x00\x00\x00\x05\x00\x00\x00\x00\x00\x00\x00\x00";

const CHOSEN_0: &[u8] = b"\
    \x01\x01\x06\x00\x00\x00\x00\x00\x00\x00\x00\x00\x00\x00\x00\x00\x00\x00\x05\x01\x01\x00\x00\x00\
    \x00\x00\x00\x00\x00\x00\x01\x0a\x01\x00\x04\x00\x00\x00\x00\x00\x00\x00\x01\
    ";

/// The machine's first ask in boot 1, and in boot 2.
const ASK: &[u8] =
    b"\x01\x01\x08\x00\x00\x00\x00\x00\x00\x00\x01\x0a\x01\x00\x04\x00\x00\x00\x00\x00\x00\x00\x01";

const ASK_AGAIN: &[u8] =
    b"\x01\x01\x08\x00\x00\x00\x00\x00\x00\x00\x02\x0a\x01\x00\x04\x00\x00\x00\x00\x00\x00\x00\x01";

/// Prepare 4: promised by a replica that has nothing, refused where 5 is promised.
const PREPARE_4: &[u8] = b"\x01\x01\x01\x00\x00\x00\x00\x00\x00\x00\x04";

const PROMISE_4: &[u8] = b"\
    \x01\x01\x02\x00\x00\x00\x00\x00\x00\x00\x04\x00\x00\x00\x00\x00\x00\x00\x00\x00\x00\x00\x00\x00\
    \x00\x00\x00\
    ";

const REFUSE_4: &[u8] =
    b"\x01\x01\x05\x00\x00\x00\x00\x00\x00\x00\x04\x00\x00\x00\x00\x00\x00\x00\x05";

/// Prepare 6, and its Promise: of an empty log, with the vote at 5, and of a log of one slot.
const PREPARE_6: &[u8] = b"\x01\x01\x01\x00\x00\x00\x00\x00\x00\x00\x06";

const PROMISE_6: &[u8] = b"\
    \x01\x01\x02\x00\x00\x00\x00\x00\x00\x00\x06\x00\x00\x00\x00\x00\x00\x00\x00\x00\x00\x00\x00\x00\
    \x00\x00\x00\
    ";

const PROMISE_6_WITH_VOTE: &[u8] = b"\
    \x01\x01\x02\x00\x00\x00\x00\x00\x00\x00\x06\x00\x00\x00\x00\x00\x00\x00\x00\x00\x00\x00\x00\x00\
    \x00\x00\x05\x01\x01\x00\x00\x00\x00\x00\x00\x00\x00\x00\x01\x0a\x01\x00\x04\x00\x00\x00\x00\x00\
    \x00\x00\x01\
    ";

const PROMISE_6_WITH_LOG: &[u8] = b"\
    \x01\x01\x02\x00\x00\x00\x00\x00\x00\x00\x06\x00\x00\x00\x00\x00\x00\x00\x01\x00\x00\x00\x00\x00\
    \x00\x00\x00\
    ";

// ---- a mux's entries and messages

/// Boots 1 and 2 of mux 0, and the epochs 5 and 7.
const MUX_BOOT: &[u8] = b"\x01\x01\x02\x00\x00\x00\x00\x00\x00\x00\x00\x00\x01";

const MUX_BOOT_2: &[u8] = b"\x01\x01\x02\x00\x00\x00\x00\x00\x00\x00\x00\x00\x02";

const EPOCH_5: &[u8] = b"\x05\x00\x00\x00\x00\x00\x00\x00\x05";

const EPOCH_7: &[u8] = b"\x05\x00\x00\x00\x00\x00\x00\x00\x07";

/// MuxHello in boot 1, and in boot 2 with the epoch that was found.
pub const HELLO: &[u8] =
    b"\x01\x01\x0f\x00\x00\x00\x00\x00\x00\x00\x01\x00\x00\x00\x00\x00\x00\x00\x00";

const HELLO_AGAIN: &[u8] =
    b"\x01\x01\x0f\x00\x00\x00\x00\x00\x00\x00\x02\x00\x00\x00\x00\x00\x00\x00\x00";

const HELLO_AT_5: &[u8] =
    b"\x01\x01\x0f\x00\x00\x00\x00\x00\x00\x00\x02\x00\x00\x00\x00\x00\x00\x00\x05";

const HELLO_AT_7: &[u8] =
    b"\x01\x01\x0f\x00\x00\x00\x00\x00\x00\x00\x02\x00\x00\x00\x00\x00\x00\x00\x07";

/// Program of lease 1 at epoch 5, its Programmed, and its MuxRefuse where 7 is kept.
const PROGRAM_5: &[u8] = b"\
    \x01\x01\x10\x00\x00\x00\x00\x00\x00\x00\x05\x00\x00\x00\x00\x00\x00\x00\x01\x00\x00\x00\x00\x00\
    \x00\x00\x01\xc0\x00\x02\x0a\x04\x00\x0a\x01\x00\x04\
    ";

const PROGRAMMED_5: &[u8] = b"\
    \x01\x01\x11\x00\x00\x00\x00\x00\x00\x00\x05\x00\x00\x00\x00\x00\x00\x00\x01\x00\x00\x00\x00\x00\
    \x00\x00\x01\
    ";

const REFUSED_5: &[u8] = b"\
    \x01\x01\x14\x00\x00\x00\x00\x00\x00\x00\x05\x00\x00\x00\x00\x00\x00\x00\x01\x00\x00\x00\x00\x00\
    \x00\x00\x07\
    ";

/// Unprogram of lease 1 at epoch 7, and its Unprogrammed.
const UNPROGRAM_7: &[u8] = b"\
    \x01\x01\x12\x00\x00\x00\x00\x00\x00\x00\x07\x00\x00\x00\x00\x00\x00\x00\x01\x00\x00\x00\x00\x00\
    \x00\x00\x01\xc0\x00\x02\x0a\x04\x00\
    ";

const UNPROGRAMMED_7: &[u8] = b"\
    \x01\x01\x13\x00\x00\x00\x00\x00\x00\x00\x07\x00\x00\x00\x00\x00\x00\x00\x01\x00\x00\x00\x00\x00\
    \x00\x00\x01\
    ";

/// Program at epoch 8 for boot 1, its Programmed, and its MuxRefuse by boot 2 with the epoch that was found.
const PROGRAM_8: &[u8] = b"\
    \x01\x01\x10\x00\x00\x00\x00\x00\x00\x00\x08\x00\x00\x00\x00\x00\x00\x00\x01\x00\x00\x00\x00\x00\
    \x00\x00\x01\xc0\x00\x02\x0a\x04\x00\x0a\x01\x00\x04\
    ";

const PROGRAMMED_8: &[u8] = b"\
    \x01\x01\x11\x00\x00\x00\x00\x00\x00\x00\x08\x00\x00\x00\x00\x00\x00\x00\x01\x00\x00\x00\x00\x00\
    \x00\x00\x01\
    ";

const REFUSED_8: &[u8] = b"\
    \x01\x01\x14\x00\x00\x00\x00\x00\x00\x00\x08\x00\x00\x00\x00\x00\x00\x00\x02\x00\x00\x00\x00\x00\
    \x00\x00\x00\
    ";

const REFUSED_8_AT_5: &[u8] = b"\
    \x01\x01\x14\x00\x00\x00\x00\x00\x00\x00\x08\x00\x00\x00\x00\x00\x00\x00\x02\x00\x00\x00\x00\x00\
    \x00\x00\x05\
    ";

const REFUSED_8_AT_7: &[u8] = b"\
    \x01\x01\x14\x00\x00\x00\x00\x00\x00\x00\x08\x00\x00\x00\x00\x00\x00\x00\x02\x00\x00\x00\x00\x00\
    \x00\x00\x07\
    ";

// ---- an agent's entry, messages and packets

/// Boots 1 and 2 of agent 0, and its AgentUp in each.
const AGENT_BOOT: &[u8] = b"\x01\x01\x03\x00\x00\x00\x00\x00\x00\x00\x00\x00\x01";

const AGENT_BOOT_2: &[u8] = b"\x01\x01\x03\x00\x00\x00\x00\x00\x00\x00\x00\x00\x02";

const AGENT_UP: &[u8] = b"\x01\x01\x0d\x00\x00\x00\x00\x00\x00\x00\x01";

const AGENT_UP_AGAIN: &[u8] = b"\x01\x01\x0d\x00\x00\x00\x00\x00\x00\x00\x02";

/// Lease 1 for the first ask of boot 1.
const GRANT: &[u8] = b"\
    \x01\x01\x09\x00\x00\x00\x00\x00\x00\x00\x01\x0a\x01\x00\x04\x00\x00\x00\x00\x00\x00\x00\x01\x00\
    \x00\x00\x00\x00\x00\x00\x01\xc0\x00\x02\x0a\x04\x00\
    ";

/// The machine's packet to 198.51.100.7, port 53, and as it leaves from the VIP's port 1024.
const PACKET: &[u8] = b"\
    \x02\x45\x00\x00\x1e\x00\x01\x00\x00\x40\x11\x46\x8f\x0a\x01\x00\x04\xc6\x33\x64\x07\x13\x88\x00\
    \x35\x00\x0a\x4f\x74\x68\x69\
    ";

const LEFT: &[u8] = b"\
    \x02\x45\x00\x00\x1e\x00\x01\x00\x00\x40\x11\x8e\x89\xc0\x00\x02\x0a\xc6\x33\x64\x07\x04\x00\x00\
    \x35\x00\x0a\xa6\xf6\x68\x69\
    ";

/// Replica 0 is promised its ballot, votes for the first value and learns it.
pub const A_REPLICA: Story<'static> = Story {
    who: NodeId::Replica(0),
    lines: &[
        Line {
            input: Input::Tick { now: 1000 },
            writes: true,
            told: &[Told {
                to: FIVE,
                bytes: PREPARE_5,
            }],
        },
        Line {
            input: Input::Datagram {
                from: REPLICA_0,
                bytes: PREPARE_5,
            },
            writes: false,
            told: &[Told {
                to: &[REPLICA_0],
                bytes: PROMISE_5,
            }],
        },
        Line {
            input: Input::Datagram {
                from: REPLICA_0,
                bytes: PROMISE_5,
            },
            writes: false,
            told: &[],
        },
        Line {
            input: Input::Datagram {
                from: REPLICA_1,
                bytes: PROMISE_5,
            },
            writes: false,
            told: &[],
        },
        Line {
            input: Input::Datagram {
                from: REPLICA_2,
                bytes: PROMISE_5,
            },
            writes: false,
            told: &[],
        },
        Line {
            input: Input::Datagram {
                from: AGENT,
                bytes: ASK,
            },
            writes: false,
            told: &[Told {
                to: FIVE,
                bytes: ACCEPT_5,
            }],
        },
        Line {
            input: Input::Datagram {
                from: REPLICA_0,
                bytes: ACCEPT_5,
            },
            writes: true,
            told: &[Told {
                to: &[REPLICA_0],
                bytes: ACCEPTED_5,
            }],
        },
        Line {
            input: Input::Datagram {
                from: REPLICA_0,
                bytes: ACCEPTED_5,
            },
            writes: false,
            told: &[],
        },
        Line {
            input: Input::Datagram {
                from: REPLICA_1,
                bytes: ACCEPTED_5,
            },
            writes: false,
            told: &[],
        },
        Line {
            input: Input::Datagram {
                from: REPLICA_2,
                bytes: ACCEPTED_5,
            },
            writes: true,
            told: &[Told {
                to: OTHERS,
                bytes: CHOSEN_0,
            }],
        },
    ],
    entries: &[REPLICA_BOOT, PROMISED_5, VOTED_5, LEARNED_5],
    boot_2: REPLICA_BOOT_2,
    asked: &[
        Input::Datagram {
            from: REPLICA_4,
            bytes: PREPARE_4,
        },
        Input::Datagram {
            from: REPLICA_1,
            bytes: PREPARE_6,
        },
    ],
    answers: &[
        &[
            Told {
                to: &[REPLICA_4],
                bytes: PROMISE_4,
            },
            Told {
                to: &[REPLICA_1],
                bytes: PROMISE_6,
            },
        ],
        &[
            Told {
                to: &[REPLICA_4],
                bytes: PROMISE_4,
            },
            Told {
                to: &[REPLICA_1],
                bytes: PROMISE_6,
            },
        ],
        &[
            Told {
                to: &[REPLICA_4],
                bytes: REFUSE_4,
            },
            Told {
                to: &[REPLICA_1],
                bytes: PROMISE_6,
            },
        ],
        &[
            Told {
                to: &[REPLICA_4],
                bytes: REFUSE_4,
            },
            Told {
                to: &[REPLICA_1],
                bytes: PROMISE_6_WITH_VOTE,
            },
        ],
        &[
            Told {
                to: &[REPLICA_4],
                bytes: REFUSE_4,
            },
            Told {
                to: &[REPLICA_1],
                bytes: PROMISE_6_WITH_LOG,
            },
        ],
    ],
};

/// Mux 0 takes two epochs, and refuses the first one then.
pub const A_MUX: Story<'static> = Story {
    who: NodeId::Mux(0),
    lines: &[
        Line {
            input: Input::Tick { now: 1000 },
            writes: false,
            told: &[Told {
                to: FIVE,
                bytes: HELLO,
            }],
        },
        Line {
            input: Input::Datagram {
                from: REPLICA_0,
                bytes: PROGRAM_5,
            },
            writes: true,
            told: &[Told {
                to: &[REPLICA_0],
                bytes: PROGRAMMED_5,
            }],
        },
        Line {
            input: Input::Datagram {
                from: REPLICA_2,
                bytes: UNPROGRAM_7,
            },
            writes: true,
            told: &[Told {
                to: &[REPLICA_2],
                bytes: UNPROGRAMMED_7,
            }],
        },
        Line {
            input: Input::Datagram {
                from: REPLICA_0,
                bytes: PROGRAM_5,
            },
            writes: false,
            told: &[Told {
                to: &[REPLICA_0],
                bytes: REFUSED_5,
            }],
        },
    ],
    entries: &[MUX_BOOT, EPOCH_5, EPOCH_7],
    boot_2: MUX_BOOT_2,
    asked: &[
        Input::Tick { now: 2000 },
        Input::Datagram {
            from: REPLICA_3,
            bytes: PROGRAM_8,
        },
    ],
    answers: &[
        &[
            Told {
                to: FIVE,
                bytes: HELLO,
            },
            Told {
                to: &[REPLICA_3],
                bytes: PROGRAMMED_8,
            },
        ],
        &[
            Told {
                to: FIVE,
                bytes: HELLO_AGAIN,
            },
            Told {
                to: &[REPLICA_3],
                bytes: REFUSED_8,
            },
        ],
        &[
            Told {
                to: FIVE,
                bytes: HELLO_AT_5,
            },
            Told {
                to: &[REPLICA_3],
                bytes: REFUSED_8_AT_5,
            },
        ],
        &[
            Told {
                to: FIVE,
                bytes: HELLO_AT_7,
            },
            Told {
                to: &[REPLICA_3],
                bytes: REFUSED_8_AT_7,
            },
        ],
    ],
};

/// Agent 0 holds a packet of its machine until a range comes. It keeps its boot alone.
pub const AN_AGENT: Story<'static> = Story {
    who: NodeId::Agent(0),
    lines: &[
        Line {
            input: Input::Tick { now: 1000 },
            writes: false,
            told: &[Told {
                to: FIVE,
                bytes: AGENT_UP,
            }],
        },
        Line {
            input: Input::Datagram {
                from: ATTACH,
                bytes: PACKET,
            },
            writes: false,
            told: &[Told {
                to: &[REPLICA_0],
                bytes: ASK,
            }],
        },
        Line {
            input: Input::Datagram {
                from: REPLICA_0,
                bytes: GRANT,
            },
            writes: false,
            told: &[Told {
                to: &[ROUTER],
                bytes: LEFT,
            }],
        },
    ],
    entries: &[AGENT_BOOT],
    boot_2: AGENT_BOOT_2,
    asked: &[
        Input::Tick { now: 2000 },
        Input::Datagram {
            from: REPLICA_0,
            bytes: GRANT,
        },
        Input::Datagram {
            from: ATTACH,
            bytes: PACKET,
        },
    ],
    answers: &[
        &[
            Told {
                to: FIVE,
                bytes: AGENT_UP,
            },
            Told {
                to: &[ROUTER],
                bytes: LEFT,
            },
        ],
        &[
            Told {
                to: FIVE,
                bytes: AGENT_UP_AGAIN,
            },
            Told {
                to: &[REPLICA_0],
                bytes: ASK_AGAIN,
            },
        ],
    ],
};
