ghost use Rattle.std.specs.Prelude.{◌≡◌, ◌++◌, OnOk, string_bytes};
ghost use Rattle.transcript_summary.specs.Summary.{counted, four_lines, lease_acts, summary, traffic_acts};

use crate::kinds::{Counts, LeaseCounts, TrafficCounts};
use std::alloc::AllocError;

/// Appends a name, a space, and a count.
#[tactic(auto, unfolding(crate::specs::Summary::counted))]
fn append_count(out: &mut String, name: &str, count: u64) -> Result<(), AllocError>
    ensures { OnOk result (string_bytes out.new ≡ string_bytes out.old ++ counted name.now count) }
{
    write!(out, "{name} {count}")
}

/// Appends how many lines say acts on leases.
#[tactic(auto, unfolding(crate::specs::Summary::lease_acts))]
fn append_lease_acts(out: &mut String, counts: &LeaseCounts) -> Result<(), AllocError>
    ensures { OnOk result (string_bytes out.new ≡ string_bytes out.old ++ lease_acts counts.now) }
{
    append_count(out, " reserve", counts.reserves)?;
    append_count(out, " grant", counts.grants)?;
    append_count(out, " hold", counts.holds)?;
    append_count(out, " drop", counts.drops)?;
    append_count(out, " free", counts.frees)?;
    append_count(out, " freed", counts.freed)?;
    Ok(())
}

/// Appends how many lines say acts on connections, losses and packets that were handed.
#[tactic(auto, unfolding(crate::specs::Summary::traffic_acts))]
fn append_traffic_acts(out: &mut String, counts: &TrafficCounts) -> Result<(), AllocError>
    ensures { OnOk result (string_bytes out.new ≡ string_bytes out.old ++ traffic_acts counts.now) }
{
    append_count(out, " open", counts.opens)?;
    append_count(out, " close", counts.closes)?;
    append_count(out, " lose", counts.losses)?;
    append_count(out, " hand", counts.hands)?;
    Ok(())
}

/// Appends the four lines of some counts.
pub fn append_counts(out: &mut String, counts: &Counts) -> Result<(), AllocError>
    ensures { OnOk result (string_bytes out.new ≡ string_bytes out.old ++ four_lines counts.now) }
{
    append_count(out, "events", counts.events)?;
    out.push_str("\n")?;
    append_count(out, "sent", counts.sent)?;
    out.push_str("\nacts")?;
    append_lease_acts(out, &counts.leases)?;
    append_traffic_acts(out, &counts.traffic)?;
    out.push_str("\n")?;
    append_count(out, "drops", counts.drops)?;
    out.push_str("\n")?;
    Ok(())
}

/// Appends the four lines that say how many lines of each kind a text has.
pub fn append_summary(out: &mut String, text: &[u8]) -> Result<(), AllocError>
    ensures { OnOk result (string_bytes out.new ≡ string_bytes out.old ++ summary text.now) }
{
    append_counts(out, &Counts::of(text))
}
