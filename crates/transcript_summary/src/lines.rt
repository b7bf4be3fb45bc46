ghost use Rattle.std.specs.Prelude.{◌≡◌, ◌<◌, ◌+◌, ◌-◌, ◌^◌};
ghost use Rattle.transcript_summary.specs.Summary.{begins, one};

fn begins(front: &[u8], line: &[u8]) -> bool
    ensures { result ≡ begins front.now line.now }
{
    line.starts_with(front)
}

/// One more where the line begins with these bytes.
pub fn tally(count: u64, front: &[u8], line: &[u8]) -> u64
    requires { count < 2 ^ 64 - 1 }
    ensures { result ≡ count + one front.now line.now }
{
    if begins(front, line) {
        count + 1
    } else {
        count
    }
}
