ghost use Rattle.std.specs.Prelude.{◌≡◌, List, ℕ, Bool, Option, length};
ghost use Rattle.outside_io.specs.Faults.{HasCause};
ghost use Rattle.outside_io.specs.Link.{Answer, Sent, answer_with, sent_with, FitsIn, NoneIsIdle};
ghost use Rattle.outside_io.specs.Telling.{Tells};

use crate::failed::Failed;
use wire_core::Socket;

/// The most bytes of a UDP datagram over IPv4: 65,535 less the headers of IPv4 (20) and UDP (8).
pub const MAX_DATAGRAM: usize = 65_507;

/// A datagram that came: its sender, and how many bytes at the front of the buffer are its own.
#[derive(Clone, Copy, Debug, PartialEq, Eq)]
pub struct Arrival {
    pub from: Socket,
    pub len: usize,
}

/// A socket for datagrams.
pub trait Link {
    /// All answers of `next` so far in order, None and Failed among them, where they are known.
    ghost answers: { Self → Option (List Answer) };

    /// Each datagram that was handed to `send` so far, in order, with that call's answer, where they are known.
    ghost sent: { Self → Option (List Sent) };

    /// Whether a datagram is waiting, where that is known.
    ghost waiting: { Self → Option Bool };

    /// How often `next` has failed.
    ghost next_faults: { Self → ℕ };

    /// How often `send` has failed.
    ghost send_faults: { Self → ℕ };

    /// The next datagram that came, its bytes at the front of `buf`, which has [`MAX_DATAGRAM`] bytes. None comes only
    /// where nothing was waiting.
    fn next(&mut self, buf: &mut [u8]) -> Result<Option<Arrival>, Failed>
        requires { length buf.old ≡ 65507 }
        ensures room { length buf.new ≡ length buf.old }
        ensures bound { FitsIn 65507 result }
        ensures told { Tells (answers self.old) (answers self.new) (answer_with buf.new result) }
        ensures idle { NoneIsIdle (waiting self.old) result }
        ensures cause { HasCause (next_faults self.old) (next_faults self.new) result }
        ensures sent { sent self.new ≡ sent self.old }
        ensures send_faults { send_faults self.new ≡ send_faults self.old };

    /// Hands a datagram over. `Failed` is a loss: the datagram is gone, and the caller may go on.
    fn send(&mut self, to: &Socket, bytes: &[u8]) -> Result<(), Failed>
        ensures told { Tells (sent self.old) (sent self.new) (sent_with to.now bytes.now result) }
        ensures cause { HasCause (send_faults self.old) (send_faults self.new) result }
        ensures answers { answers self.new ≡ answers self.old }
        ensures next_faults { next_faults self.new ≡ next_faults self.old };
}
