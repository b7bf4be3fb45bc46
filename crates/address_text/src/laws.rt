ghost use Rattle.address_text.specs.Laws.{AddressesHaveOneSpelling, NumbersHaveOneSpelling, SocketsHaveOneSpelling};

/// Reading is the inverse of writing: a text is read as a number, an address or a socket exactly where it is its
/// spelling.
pub fn spelling()
    ensures numbers { NumbersHaveOneSpelling }
    ensures addresses { AddressesHaveOneSpelling }
    ensures sockets { SocketsHaveOneSpelling }
{}
