ghost use Rattle.std.specs.Prelude.{◌≡◌};
ghost use Rattle.ipip.specs.Causes.{unwrap_cause, wrap_cause};

use crate::unwrapping::UnwrapFault;
use crate::wrapping::WrapFault;
use packet_spec::ip_cause;
use wire_core::DropCause;

/// Why a packet is dropped that isn't wrapped.
pub fn wrap_cause(fault: WrapFault) -> DropCause
    ensures { result ≡ wrap_cause fault }
{
    match fault {
        WrapFault::TooLong => DropCause::TooLong,
        WrapFault::TtlOut => DropCause::TtlOut,
    }
}

/// Why a packet is dropped that carries none.
pub fn unwrap_cause(fault: UnwrapFault) -> DropCause
    ensures { result ≡ unwrap_cause fault }
{
    match fault {
        UnwrapFault::Ip(fault) => ip_cause(fault),
        UnwrapFault::NotIpip => DropCause::NotIpip,
    }
}
