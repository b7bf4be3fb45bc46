ghost use Rattle.std.specs.Prelude.{◌≡◌, None, IfOk};

use crate::faults::counted;
use outside_io::{Arrival, Failed, Link};
use std::io;
use std::io::ErrorKind;
use std::net::{Ipv4Addr, Net, SocketAddr, SocketAddrV4, UdpSocket};
use std::time::Duration;
use wire_core::{Ip4, Socket};

/// How long `next` waits for a datagram, in milliseconds.
const WAIT: u64 = 10;

/// A UDP socket as a link (RFC 768). Its `next` answers None where nothing came for 10 milliseconds.
#[derive(Drop)]
pub struct UdpLink {
    socket: UdpSocket,
    next_faults: u64,
    send_faults: u64,
}

fn address(at: &Socket) -> SocketAddr {
    SocketAddr::V4(SocketAddrV4::new(Ipv4Addr::from(at.ip.0), at.port))
}

fn socket(at: SocketAddrV4) -> Socket {
    Socket {
        ip: Ip4(u32::from(*at.ip())),
        port: at.port(),
    }
}

impl UdpLink {
    /// A link whose own end is `at`.
    pub fn bind<R: Net>(rt: &R, at: &Socket) -> io::Result<UdpLink>
        ensures { IfOk result (λ link. (link.next_faults ≡ 0) × (link.send_faults ≡ 0)) }
    {
        let socket = UdpSocket::bind(rt, address(at))?;
        socket.set_read_timeout(Some(Duration::from_millis(WAIT)))?;
        Ok(UdpLink {
            socket,
            next_faults: 0,
            send_faults: 0,
        })
    }

    /// How often `next` has failed.
    pub fn next_faults(&self) -> u64
        ensures { result ≡ self.now.next_faults }
    {
        self.next_faults
    }
}

// Nothing came in time.
fn is_idle(kind: ErrorKind) -> bool {
    kind == ErrorKind::WouldBlock || kind == ErrorKind::TimedOut
}

impl Link for UdpLink {
    ghost answers = { λ _. None };

    ghost sent = { λ _. None };

    ghost waiting = { λ _. None };

    ghost next_faults = { λ link. link.next_faults };

    ghost send_faults = { λ link. link.send_faults };

    fn next(&mut self, buf: &mut [u8]) -> Result<Option<Arrival>, Failed> {
        match self.socket.recv_from(buf) {
            Ok((len, SocketAddr::V4(from))) => Ok(Some(Arrival {
                from: socket(from),
                len,
            })),
            Ok((_, SocketAddr::V6(_))) => Ok(None),
            Err(e) if is_idle(e.kind()) => Ok(None),
            Err(_) => {
                self.next_faults = self.next_faults.saturating_add(1);
                Err(Failed)
            }
        }
    }

    fn send(&mut self, to: &Socket, bytes: &[u8]) -> Result<(), Failed> {
        match counted(
            &mut self.send_faults,
            self.socket.send_to(bytes, address(to)),
        ) {
            Ok(_) => Ok(()),
            Err(Failed) => Err(Failed),
        }
    }
}
