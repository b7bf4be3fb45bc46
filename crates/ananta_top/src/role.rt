ghost use Rattle.std.specs.Prelude.{◌≡◌};
ghost use Rattle.ananta_top.specs.Words.{role_named};

/// What a node is.
#[derive(Clone, Copy, Debug, PartialEq, Eq)]
pub enum NodeRole {
    Replica,
    Mux,
    Agent,
}

/// The role that a word names.
pub fn role_named(word: &str) -> Option<NodeRole>
    ensures { result ≡ role_named word.now }
{
    match word {
        "replica" => Some(NodeRole::Replica),
        "mux" => Some(NodeRole::Mux),
        "agent" => Some(NodeRole::Agent),
        _ => None,
    }
}
