// When a derived `==` finds two values the same.
ghost use Rattle.std.specs.Prelude.{◌≡◌, ◌↔◌, true};
ghost use Rattle.wire_core.specs.declared.address.Ip4 as ips;
ghost use Rattle.wire_core.specs.declared.address.Socket as sockets;
ghost use Rattle.wire_core.specs.declared.flow.FlowKey as keys;
ghost use Rattle.wire_core.specs.declared.flow.Proto as protos;
ghost use Rattle.wire_core.specs.declared.range.Range as ranges;
ghost use Rattle.wire_core.specs.Same.{same_ip, same_key, same_proto, same_range, same_socket};

use crate::address::{Ip4, Socket};
use crate::flow::{FlowKey, Proto};
use crate::range::Range;

/// The derived `==` of addresses, sockets, transports, ranges and flow keys is the words of `Same`.
pub fn equality_is_sameness()
    ensures ips { (a b : ips.Ip4) → ⟦<Ip4 as PartialEq>⟧.eq a b ≡ same_ip a b }
    ensures sockets { (a b : sockets.Socket) → ⟦<Socket as PartialEq>⟧.eq a b ≡ same_socket a b }
    ensures protos { (a b : protos.Proto) → ⟦<Proto as PartialEq>⟧.eq a b ≡ same_proto a b }
    ensures ranges { (a b : ranges.Range) → ⟦<Range as PartialEq>⟧.eq a b ≡ same_range a b }
    ensures keys { (a b : keys.FlowKey) → ⟦<FlowKey as PartialEq>⟧.eq a b ≡ same_key a b }
{}

/// Two of them are the same exactly where they are equal.
pub fn sameness_is_equality()
    ensures ips { (a b : ips.Ip4) → (same_ip a b ≡ true) ↔ (a ≡ b) }
    ensures sockets { (a b : sockets.Socket) → (same_socket a b ≡ true) ↔ (a ≡ b) }
    ensures protos { (a b : protos.Proto) → (same_proto a b ≡ true) ↔ (a ≡ b) }
    ensures ranges { (a b : ranges.Range) → (same_range a b ≡ true) ↔ (a ≡ b) }
    ensures keys { (a b : keys.FlowKey) → (same_key a b ≡ true) ↔ (a ≡ b) }
{}
