ghost use Rattle.std.specs.Prelude.{◌≡◌};
ghost use Rattle.packet_spec.specs.Causes.{cause_name, ip_cause, packet_cause, segment_cause};

use crate::fault::{IpFault, PacketFault, SegmentFault};
use wire_core::DropCause;

/// Why a packet is dropped whose header has this first fault.
pub fn ip_cause(fault: IpFault) -> DropCause
    ensures { result ≡ ip_cause fault }
{
    match fault {
        IpFault::Short => DropCause::IpShort,
        IpFault::Version => DropCause::IpVersion,
        IpFault::HeaderLength => DropCause::IpHeaderLength,
        IpFault::TotalLength => DropCause::IpTotalLength,
        IpFault::HeaderSum => DropCause::IpHeaderSum,
        IpFault::Fragment => DropCause::Fragment,
    }
}

/// Why a packet is dropped whose segment has this first fault.
fn segment_cause(fault: SegmentFault) -> DropCause
    ensures { result ≡ segment_cause fault }
{
    match fault {
        SegmentFault::Short => DropCause::SegShort,
        SegmentFault::DataOffset => DropCause::DataOffset,
        SegmentFault::Length => DropCause::SegLength,
        SegmentFault::Sum => DropCause::BadSum,
    }
}

/// Why a packet with this first fault is dropped.
#[tactic(auto, unfolding(crate::specs::Causes::packet_cause))]
pub fn packet_cause(fault: PacketFault) -> DropCause
    ensures { result ≡ packet_cause fault }
{
    match fault {
        PacketFault::Ip(fault) => ip_cause(fault),
        PacketFault::NotTransport => DropCause::NotTransport,
        PacketFault::Segment(fault) => segment_cause(fault),
    }
}

/// The cause's name, as it is printed, without the number that some carry.
#[tactic(auto, unfolding(crate::specs::Causes::cause_name))]
pub fn cause_name(cause: DropCause) -> &'static str
    ensures { result.now ≡ cause_name cause }
{
    match cause {
        DropCause::BadFrame => "BadFrame",
        DropCause::BadMessage => "BadMessage",
        DropCause::NotFromMux => "NotFromMux",
        DropCause::NotNode => "NotNode",
        DropCause::WrongRole => "WrongRole",
        DropCause::IpShort => "IpShort",
        DropCause::IpVersion => "IpVersion",
        DropCause::IpHeaderLength => "IpHeaderLength",
        DropCause::IpTotalLength => "IpTotalLength",
        DropCause::IpHeaderSum => "IpHeaderSum",
        DropCause::Fragment => "Fragment",
        DropCause::NotTransport => "NotTransport",
        DropCause::SegShort => "SegShort",
        DropCause::DataOffset => "DataOffset",
        DropCause::SegLength => "SegLength",
        DropCause::BadSum => "BadSum",
        DropCause::Late => "Late",
        DropCause::NotPrimary => "NotPrimary",
        DropCause::NotMine => "NotMine",
        DropCause::Waiting => "Waiting",
        DropCause::QueueFull => "QueueFull",
        DropCause::Unknown => "Unknown",
        DropCause::WrongBoot(_) => "WrongBoot",
        DropCause::OldEpoch(_) => "OldEpoch",
        DropCause::OldNumber(_) => "OldNumber",
        DropCause::NoLease => "NoLease",
        DropCause::NotVip => "NotVip",
        DropCause::NoEndpoint => "NoEndpoint",
        DropCause::TooLong => "TooLong",
        DropCause::TtlOut => "TtlOut",
        DropCause::BadSource => "BadSource",
        DropCause::NoSnat => "NoSnat",
        DropCause::TableFull => "TableFull",
        DropCause::OldGrant(_) => "OldGrant",
        DropCause::Denied => "Denied",
        DropCause::NoConnection => "NoConnection",
        DropCause::StaleLease(_) => "StaleLease",
        DropCause::NotIpip => "NotIpip",
        DropCause::BadSender => "BadSender",
        DropCause::WrongMachine => "WrongMachine",
        DropCause::KeyInUse => "KeyInUse",
    }
}
