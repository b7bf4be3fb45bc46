ghost use Rattle.std.specs.Prelude.{◌≡◌, ◌<◌, ◌↔◌, IsNone, IfSome};
ghost use Rattle.wire_core.specs.Ranges.{range_of};

use crate::address::Ip4;

/// Eight contiguous ports of a VIP: those from `start` to `start + 7`.
#[derive(Clone, Copy, Debug, PartialEq, Eq, PartialOrd, Ord, Hash)]
pub struct Range {
    pub vip: Ip4,
    pub start: u16,
}

impl Range {
    /// The range that a port lies in, which starts at `port - port % 8`. `None` exactly below port 1024.
    pub fn of(vip: Ip4, port: u16) -> Option<Range>
        ensures none { IsNone result ↔ (port < 1024) }
        ensures range { IfSome result (λ r. r ≡ range_of vip port) }
    {
        if port < 1024 {
            None
        } else {
            Some(Range {
                vip,
                start: port - port % 8,
            })
        }
    }
}
