ghost use Rattle.std.specs.Prelude.{◌≡◌, IfSome, option_map};
ghost use Rattle.ananta_top.specs.Words.{IsWithinLines, generate_of, in_five_words, in_four_words, in_two_words, job_named, job_of, node_of, node_of_four, node_of_three, turns_in};

use crate::role::{NodeRole, role_named};
use address_text::read_number;

/// The most lines that `generate` adds to its four opening ones, so that a schedule has at most 100,000.
const MAX_COUNT: u64 = 99_996;

/// What the program is asked to do.
#[derive(Clone, Copy, Debug, PartialEq, Eq)]
pub enum Job {
    /// `replay`: the input is a schedule.
    Replay,
    /// `replay --summary`: the same, and what it prints is counted.
    Summary,
    /// `check`: the input is a configuration.
    Check,
    /// `generate NUMBER COUNT`: the schedule of a number, with so many lines, at most 99,996, behind its opening ones.
    /// The input isn't read.
    Generate {
        number: u64,
        count: u64,
    },
    /// `node ROLE INDEX --turns N`: the node of this role and number, under the configuration that is the input, for so
    /// many turns.
    Node {
        role: NodeRole,
        index: u64,
        turns: u64,
    },
}

/// The job that one word names.
fn job_named(word: &str) -> Option<Job>
    ensures { result ≡ job_named word.now }
{
    match word {
        "replay" => Some(Job::Replay),
        "check" => Some(Job::Check),
        _ => None,
    }
}

fn in_two_words(word: &str, next: &str) -> Option<Job>
    ensures value { result ≡ in_two_words word.now next.now }
    ensures within { IfSome result IsWithinLines }
{
    match word {
        "replay" => match next {
            "--summary" => Some(Job::Summary),
            _ => None,
        },
        _ => None,
    }
}

fn generate_of(number: &[u8], count: &[u8]) -> Option<Job>
    ensures value { result ≡ generate_of number.now count.now }
    ensures within { IfSome result IsWithinLines }
{
    let number = read_number(number, u64::MAX)?;
    let count = read_number(count, MAX_COUNT)?;
    Some(Job::Generate { number, count })
}

fn node_of(name: &str, index: &str, turns: &[u8]) -> Option<Job>
    ensures value { result ≡ node_of name.now index.now turns.now }
    ensures within { IfSome result IsWithinLines }
{
    let role = role_named(name)?;
    let index = read_number(index.as_bytes(), u64::MAX)?;
    let turns = read_number(turns, u64::MAX)?;
    Some(Job::Node { role, index, turns })
}

/// What stands behind `--turns=`.
fn turns_in(word: &[u8]) -> Option<&[u8]>
    ensures { option_map (λ turns. turns.now) result ≡ turns_in word.now }
{
    match word {
        [b'-', b'-', b't', b'u', b'r', b'n', b's', b'=', turns @ ..] => Some(turns),
        _ => None,
    }
}

/// `--turns=N` stands first or last.
#[tactic(auto, unfolding(crate::specs::Words::node_of_three))]
fn node_of_three(first: &str, second: &str, third: &str) -> Option<Job>
    ensures value { result ≡ node_of_three first.now second.now third.now }
    ensures within { IfSome result IsWithinLines }
{
    match turns_in(first.as_bytes()) {
        Some(turns) => node_of(second, third, turns),
        None => match turns_in(third.as_bytes()) {
            Some(turns) => node_of(first, second, turns),
            None => None,
        },
    }
}

/// `--turns` with its number stands first or last.
fn node_of_four(first: &str, second: &str, third: &str, fourth: &str) -> Option<Job>
    ensures value { result ≡ node_of_four first.now second.now third.now fourth.now }
    ensures within { IfSome result IsWithinLines }
{
    if first == "--turns" {
        return node_of(third, fourth, second.as_bytes());
    }
    if third == "--turns" {
        return node_of(first, second, fourth.as_bytes());
    }
    None
}

fn in_four_words(word: &str, first: &str, second: &str, third: &str) -> Option<Job>
    ensures value { result ≡ in_four_words word.now first.now second.now third.now }
    ensures within { IfSome result IsWithinLines }
{
    match word {
        "node" => node_of_three(first, second, third),
        _ => None,
    }
}

fn in_five_words(word: &str, first: &str, second: &str, third: &str, fourth: &str) -> Option<Job>
    ensures value { result ≡ in_five_words word.now first.now second.now third.now fourth.now }
    ensures within { IfSome result IsWithinLines }
{
    match word {
        "node" => node_of_four(first, second, third, fourth),
        _ => None,
    }
}

/// The job that the words name. `None` exactly where they are of no form.
pub fn job_of(words: &[String]) -> Option<Job>
    ensures value { result ≡ job_of words.now }
    ensures within { IfSome result IsWithinLines }
{
    match words {
        [word] => job_named(word.as_str()),
        [word, next] => in_two_words(word.as_str(), next.as_str()),
        [word, number, count] => match word.as_str() {
            "generate" => generate_of(number.as_bytes(), count.as_bytes()),
            _ => None,
        },
        [word, first, second, third] => in_four_words(
            word.as_str(),
            first.as_str(),
            second.as_str(),
            third.as_str(),
        ),
        [word, first, second, third, fourth] => in_five_words(
            word.as_str(),
            first.as_str(),
            second.as_str(),
            third.as_str(),
            fourth.as_str(),
        ),
        _ => None,
    }
}
