ghost use Rattle.std.specs.Prelude.{◌≡◌};
ghost use Rattle.control_msg.specs.Reading.{kind_of};

/// The kind of a message. Its byte is its place in this list, from 1.
#[derive(Clone, Copy, Debug, PartialEq, Eq)]
pub enum Kind {
    Prepare,
    Promise,
    Accept,
    Accepted,
    Refuse,
    Chosen,
    Fetch,
    Ask,
    Grant,
    Denied,
    Return,
    Returned,
    AgentUp,
    AgentKnown,
    MuxHello,
    Program,
    Programmed,
    Unprogram,
    Unprogrammed,
    MuxRefuse,
    Lead,
    RedirectAsk,
    Redirect,
}

impl Kind {
    /// The kind with this byte. `None` exactly where no kind has it.
    pub fn of(byte: u8) -> Option<Kind>
        ensures { result ≡ kind_of byte }
    {
        match byte {
            1 => Some(Kind::Prepare),
            2 => Some(Kind::Promise),
            3 => Some(Kind::Accept),
            4 => Some(Kind::Accepted),
            5 => Some(Kind::Refuse),
            6 => Some(Kind::Chosen),
            7 => Some(Kind::Fetch),
            8 => Some(Kind::Ask),
            9 => Some(Kind::Grant),
            10 => Some(Kind::Denied),
            11 => Some(Kind::Return),
            12 => Some(Kind::Returned),
            13 => Some(Kind::AgentUp),
            14 => Some(Kind::AgentKnown),
            15 => Some(Kind::MuxHello),
            16 => Some(Kind::Program),
            17 => Some(Kind::Programmed),
            18 => Some(Kind::Unprogram),
            19 => Some(Kind::Unprogrammed),
            20 => Some(Kind::MuxRefuse),
            21 => Some(Kind::Lead),
            22 => Some(Kind::RedirectAsk),
            23 => Some(Kind::Redirect),
            _ => None,
        }
    }
}
