ghost use Rattle.std.specs.Prelude.{◌≡◌, ◌≤◌, IfSome};
ghost use Rattle.address_text.specs.Numbers.{number_after, number_of};

/// The number that these digits go on with, from the left. `None` exactly where a byte isn't a digit, or the number
/// passes the limit.
#[tactic(auto, unfolding(crate::specs::Numbers::number_after))]
fn read_digits(text: &[u8], limit: u64) -> Option<u64>
    ensures value { result ≡ number_after limit 0 text.now }
    ensures within { IfSome result (λ n. n ≤ limit) }
{
    let mut number = 0u64;
    for byte in text {
        if *byte < b'0' || *byte > b'9' {
            return None;
        }
        number = number.checked_mul(10)?.checked_add((*byte - b'0') as u64)?;
        if number > limit {
            return None;
        }
    }
    Some(number)
}

/// A decimal number without leading zeros, at most `limit`. `None` exactly where the text is no such number.
#[tactic(auto, using(crate::proofs::NumberText::digits_are, crate::proofs::NumberText::no_number))]
pub fn read_number(text: &[u8], limit: u64) -> Option<u64>
    ensures value { result ≡ number_of limit text.now }
    ensures within { IfSome result (λ n. n ≤ limit) }
{
    if text.is_empty() || (text[0] == b'0' && text.len() > 1) {
        return None;
    }
    read_digits(text, limit)
}
