ghost use Rattle.std.specs.Prelude.{◌≡◌, ◌<◌, ◌≤◌, ◌+◌, ◌^◌, IfSome, drop, length};
ghost use Rattle.std.specs.Option.{option_copied};
ghost use Rattle.node_schedule.specs.Halves.{dashes_at, halves, is_dashes};

use address_text::cut;

fn is_dashes(line: &[u8]) -> bool
    ensures { result ≡ is_dashes line.now }
{
    line == b"---".as_slice()
}

/// Where the first line `---` begins, in bytes.
fn dashes_at(text: &[u8]) -> Option<usize>
    requires { length text.now + 1 < 2 ^ 32 }
    ensures at { result ≡ dashes_at text.now }
    ensures within { IfSome result (λ at. at ≤ length text.now) }
{
    let mut at = 0usize;
    let mut left = Some(text);
    while let Some(rest) = left {
        let (line, more) = cut(rest, b'\n');
        if is_dashes(line) {
            return Some(at);
        }
        at += line.len() + 1;
        left = more;
    }
    None
}

/// A text from a place on; nothing past its end.
#[tactic(auto, using(std::proofs::lemmas::List::drop_all))]
fn text_from(text: &[u8], at: usize) -> &[u8]
    ensures value { result.now ≡ drop at text.now }
    ensures short { length result.now ≤ length text.now }
{
    if at > text.len() {
        return b"".as_slice();
    }
    let (_, rest) = text.split_at(at);
    rest
}

/// The text of the configuration, and of the lines behind the first line `---`. Where there is no such line, the whole
/// text.
pub fn halves(text: &[u8]) -> (&[u8], Option<&[u8]>)
    requires { length text.now + 1 < 2 ^ 32 }
    ensures value { (result.0.now, option_copied result.1) ≡ halves text.now }
    ensures short { IfSome result.1 (λ lines. length lines.now ≤ length text.now) }
{
    let Some(at) = dashes_at(text) else {
        return (text, None);
    };
    let (config, _) = text.split_at(at);
    (config, Some(text_from(text, at + 4)))
}
