// The options of a TCP header (RFC 9293, section 3.2).
ghost use Rattle.std.specs.Prelude.{◌≡◌, ◌≤◌, ◌+◌, ◌*◌, length, IfSome};
ghost use Rattle.packet_spec.specs.Options.{data_offset, option_at, IsWithin, mss_at};

use packet_spec::OptionStep;

/// The kind that ends the options.
const END: u8 = 0;

/// The kind of one byte of padding.
const NO_OPERATION: u8 = 1;

/// The kind of the maximum segment size, whose option has four bytes.
const MAXIMUM_SEGMENT_SIZE: u8 = 2;

/// The most options: a header of 15 words has 40 bytes of them.
const MOST_OPTIONS: usize = 40;

/// Where the data of a TCP segment begin, in bytes.
pub(crate) fn data_offset(segment: &[u8]) -> usize
    requires { 13 ≤ length segment.now }
    ensures { result ≡ data_offset segment.now }
{
    4 * usize::from(segment[12] / 16)
}

/// What stands at a place among the options, which end before `end`.
#[tactic(auto, unfolding(packet_spec::specs::Options::option_at))]
fn option_at(segment: &[u8], end: usize, at: usize) -> OptionStep
    requires { end ≤ length segment.now }
    ensures step { result ≡ option_at segment.now end at }
    ensures within { IsWithin result (length segment.now) }
{
    if end <= at || segment[at] == END {
        return OptionStep::Stop;
    }
    if segment[at] == NO_OPERATION {
        return OptionStep::Next(at + 1);
    }
    if end <= at + 1 || segment[at + 1] < 2 || end < at + usize::from(segment[at + 1]) {
        return OptionStep::Stop;
    }
    if segment[at] == MAXIMUM_SEGMENT_SIZE && segment[at + 1] == 4 {
        return OptionStep::Size(at + 2);
    }
    OptionStep::Next(at + usize::from(segment[at + 1]))
}

/// The place of the value of the first option of kind 2 and length 4 in a TCP segment. The walk stops at kind 0, at a
/// length below 2, and at one past the end of the options; none of these is a fault.
#[tactic(auto, using(crate::proofs::OptionLaws::mss_stop, crate::proofs::OptionLaws::mss_size), unfolding(packet_spec::specs::Options::mss_at))]
pub fn mss_at(segment: &[u8]) -> Option<usize>
    requires long { 20 ≤ length segment.now }
    requires within { data_offset segment.now ≤ length segment.now }
    ensures place { result ≡ mss_at segment.now }
    ensures room { IfSome result (λ at. at + 2 ≤ length segment.now) }
{
    let end = data_offset(segment);
    let mut at = 20;
    for _ in 0..MOST_OPTIONS {
        match option_at(segment, end, at) {
            OptionStep::Stop => return None,
            OptionStep::Size(place) => return Some(place),
            OptionStep::Next(next) => at = next,
        }
    }
    None
}
