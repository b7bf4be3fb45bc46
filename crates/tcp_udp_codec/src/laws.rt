// The walk over the options, told by how options are spelled.
ghost use Rattle.std.specs.Prelude.{◌≡◌, ℕ, ◌+◌, List, [], ◌∷◌, length, Some, None};
ghost use Rattle.packet_spec.specs.Options.{mss_at};
ghost use Rattle.tcp_udp_codec.specs.Options.{OtherOption, HasOptions, all_spelled};

/// A law, of every TCP segment `s` whose options are spelled as RFC 9293 says: behind other options, the place of a
/// maximum segment size that is there is found; where kind 0 or the data come first, none is.
pub fn finds_the_first_maximum_segment_size()
    ensures found { (s : List ℕ) (before : List OtherOption) (high low : ℕ) (rest : List ℕ)
        → HasOptions s before (2 ∷ 4 ∷ high ∷ low ∷ rest)
        → mss_at s ≡ Some (20 + length (all_spelled before) + 2) }
    ensures ended { (s : List ℕ) (before : List OtherOption) (rest : List ℕ) → HasOptions s before (0 ∷ rest)
        → mss_at s ≡ None }
    ensures spent { (s : List ℕ) (before : List OtherOption) → HasOptions s before [] → mss_at s ≡ None }
{}
