ghost use Rattle.std.specs.Prelude.{List, ℕ};
ghost use Rattle.plain_schedule.specs.Safety.{IsAlwaysSafe};

/// Whatever a text says, at each moment of it: no two machines hold one range; no two live connections share the five
/// numbers of the packets that leave, nor those of their machine's packets; each goes through a port that its machine
/// holds, and takes its machine's packets; a reply reaches the machine that opened its connection and no other.
pub fn always_safe()
    ensures { (text : List ℕ) → IsAlwaysSafe text }
{}
