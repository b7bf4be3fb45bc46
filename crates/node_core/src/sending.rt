ghost use Rattle.std.specs.Prelude.{◌≡◌, ◌≤◌, length};
ghost use Rattle.node_core.specs.Sending.{Handed};

use outside_io::Link;
use wire_core::Outgoing;

/// Hands each datagram over once, in order, and answers how many were lost.
#[tactic(auto, using(crate::proofs::Sends::handed_none, crate::proofs::Sends::handed_next))]
pub fn send_all<L: Link>(link: &mut L, sends: &[Outgoing]) -> u64
    ensures told { Handed (L.sent link.old) (L.sent link.new) sends.now result }
    ensures few { result ≤ length sends.now }
    ensures answers { L.answers link.new ≡ L.answers link.old }
    ensures next_faults { L.next_faults link.new ≡ L.next_faults link.old }
    ensures later { L.send_faults link.old ≤ L.send_faults link.new }
{
    let mut lost = 0;
    for send in sends {
        if link.send(&send.to, send.bytes.as_slice()).is_err() {
            lost += 1;
        }
    }
    lost
}
