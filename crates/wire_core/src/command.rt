ghost use Rattle.std.specs.Prelude.{◌≡◌, ◌++◌, ◌+◌, ◌%◌, ◌≤◌, OnOk, OnErr, IsOk, length, vec_len, vec_capacity};
ghost use Rattle.wire_core.specs.Commands.{Granted, command_bytes};
ghost use Rattle.wire_core.specs.Views.{IsWritable, command_of, pairs_of};

use crate::address::Ip4;
use crate::memory::NoMemory;
use crate::writing::{put_bytes, put_u8, put_u16, put_u32, put_u64};

/// A mux in one of its boots.
#[derive(Clone, Copy, Debug, PartialEq, Eq)]
pub struct MuxBoot {
    pub mux: u16,
    pub boot: u64,
}

/// A command of the log. A lease is named by a number `n`, the place of the Reserve that made it.
#[derive(Clone, Copy, Debug, PartialEq, Eq)]
pub enum Command<'a> {
    /// An agent in one of its boots asks for a range for a machine; `seq` counts the machine's requests.
    Reserve {
        agent: u16,
        boot: u64,
        machine: Ip4,
        seq: u64,
    },
    /// The muxes named by `pairs` have the row of lease `n`: 1 to 16 of them, each as a mux number of 2 bytes and a
    /// boot of 8 bytes, the mux numbers strictly ascending.
    Granted {
        n: u64,
        pairs: &'a [u8],
    },
    /// The agent gave lease `n` back.
    Release {
        n: u64,
    },
    /// No mux has the row of lease `n` any more.
    Freed {
        n: u64,
    },
    /// An agent runs in a new boot.
    Up {
        agent: u16,
        boot: u64,
    },
}

/// Appends a number and pairs of ten bytes each.
fn put_granted(out: &mut Vec<u8>, n: u64, pairs: &[u8])
    requires whole { length pairs.now % 10 ≡ 0 }
    requires few { length pairs.now ≤ 160 }
    requires room { vec_len out.old + 10 + length pairs.now ≤ vec_capacity out.old }
    ensures { out.new.items ≡ out.old.items ++ command_bytes (Granted n (pairs_of pairs.now)) }
{
    put_u8(out, 2);
    put_u64(out, n);
    put_u8(out, (pairs.len() / 10) as u8);
    put_bytes(out, pairs);
}

impl<'a> Command<'a> {
    /// Appends the command's one spelling, at most 170 bytes. It takes memory only where
    /// `out` has no room for them, and without memory `out` stays as it was.
    pub fn write(&self, out: &mut Vec<u8>) -> Result<(), NoMemory>
        requires { IsWritable self.now }
        ensures ok { OnOk result (out.new.items ≡ out.old.items ++ command_bytes (command_of self.now)) }
        ensures err { OnErr result (out.new.items ≡ out.old.items) }
        ensures room { vec_len out.old + length (command_bytes (command_of self.now)) ≤ vec_capacity out.old
            → IsOk result }
    {
        match *self {
            Command::Reserve {
                agent,
                boot,
                machine,
                seq,
            } => {
                out.reserve(23)?;
                put_u8(out, 1);
                put_u16(out, agent);
                put_u64(out, boot);
                put_u32(out, machine.0);
                put_u64(out, seq);
            }
            Command::Granted { n, pairs } => {
                out.reserve(10 + pairs.len())?;
                put_granted(out, n, pairs);
            }
            Command::Release { n } => {
                out.reserve(9)?;
                put_u8(out, 3);
                put_u64(out, n);
            }
            Command::Freed { n } => {
                out.reserve(9)?;
                put_u8(out, 4);
                put_u64(out, n);
            }
            Command::Up { agent, boot } => {
                out.reserve(11)?;
                put_u8(out, 5);
                put_u16(out, agent);
                put_u64(out, boot);
            }
        }
        Ok(())
    }
}
