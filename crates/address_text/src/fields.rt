ghost use Rattle.std.specs.Prelude.{◌≡◌, ◌==◌, ◌∷◌};
ghost use Rattle.std.specs.List.{position};
ghost use Rattle.std.specs.Option.{option_copied, option_map};
ghost use Rattle.address_text.specs.Fields.{four_of, parts, parts_of, three_of, two_of};

/// Where the first separator stands.
fn first_at(text: &[u8], separator: u8) -> Option<usize>
    ensures { result ≡ position (λ b. b == separator) text.now }
{
    text.iter().position(|byte| *byte == separator)
}

/// The text before the first separator, and what is left after it, where there is one.
#[tactic(auto, using(crate::proofs::Parts::cut_none, crate::proofs::Parts::cut_some))]
pub fn cut(text: &[u8], separator: u8) -> (&[u8], Option<&[u8]>)
    ensures { parts separator text.now ≡ result.0.now ∷ parts_of separator (option_copied result.1) }
{
    match first_at(text, separator) {
        None => (text, None),
        Some(at) => {
            let (front, _) = text.split_at(at);
            let (_, rest) = text.split_at(at + 1);
            (front, Some(rest))
        }
    }
}

/// The two parts of a text with one separator. `None` exactly where there are fewer or more.
#[tactic(auto, using(crate::proofs::Parts::two_more))]
pub fn two(text: &[u8], separator: u8) -> Option<(&[u8], &[u8])>
    ensures { option_map (λ p. (p.0.now, p.1.now)) result ≡ two_of (parts separator text.now) }
{
    let (a, rest) = cut(text, separator);
    let (b, rest) = cut(rest?, separator);
    match rest {
        None => Some((a, b)),
        Some(_) => None,
    }
}

/// The three parts of a text with two separators. `None` exactly where there are fewer or more.
#[tactic(auto, using(crate::proofs::Parts::three_more))]
pub fn three(text: &[u8], separator: u8) -> Option<(&[u8], &[u8], &[u8])>
    ensures { option_map (λ p. (p.0.now, p.1.now, p.2.now)) result ≡ three_of (parts separator text.now) }
{
    let (a, rest) = cut(text, separator);
    let (b, rest) = cut(rest?, separator);
    let (c, rest) = cut(rest?, separator);
    match rest {
        None => Some((a, b, c)),
        Some(_) => None,
    }
}

/// The four parts of a text with three separators. `None` exactly where there are fewer or more.
#[tactic(auto, using(crate::proofs::Parts::four_more))]
pub fn four(text: &[u8], separator: u8) -> Option<(&[u8], &[u8], &[u8], &[u8])>
    ensures { option_map (λ p. (p.0.now, p.1.now, p.2.now, p.3.now)) result ≡ four_of (parts separator text.now) }
{
    let (a, rest) = cut(text, separator);
    let (b, rest) = cut(rest?, separator);
    let (c, rest) = cut(rest?, separator);
    let (d, rest) = cut(rest?, separator);
    match rest {
        None => Some((a, b, c, d)),
        Some(_) => None,
    }
}
