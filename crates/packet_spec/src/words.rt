// 16-bit words and addresses in bytes, the higher byte first (RFC 791, appendix B).
ghost use Rattle.std.specs.Prelude.{◌≡◌, ◌+◌, ◌/◌, ◌%◌, ◌≤◌, length};
ghost use Rattle.packet_spec.specs.Words.{word_at, address_at, put_word, put_address, word_bytes};

use wire_core::Ip4;

/// The word in the two bytes from `at` on.
pub fn word_at(bytes: &[u8], at: usize) -> u16
    requires { at + 2 ≤ length bytes.now }
    ensures { result ≡ word_at bytes.now at }
{
    256 * u16::from(bytes[at]) + u16::from(bytes[at + 1])
}

/// The address in the four bytes from `at` on.
pub fn address_at(bytes: &[u8], at: usize) -> Ip4
    requires { at + 4 ≤ length bytes.now }
    ensures { result ≡ address_at bytes.now at }
{
    Ip4(0x1_0000 * u32::from(word_at(bytes, at)) + u32::from(word_at(bytes, at + 2)))
}

/// The two bytes of a word.
pub fn word_bytes(word: u16) -> [u8; 2]
    ensures { result ≡ word_bytes word }
{
    [(word / 256) as u8, (word % 256) as u8]
}

/// The two words of an address.
pub fn address_words(ip: Ip4) -> (u16, u16)
    ensures high { result.0 ≡ ip.0 / 65536 }
    ensures low { result.1 ≡ ip.0 % 65536 }
{
    ((ip.0 / 0x1_0000) as u16, (ip.0 % 0x1_0000) as u16)
}

/// Writes a word into the two bytes from `at` on.
pub fn put_word(bytes: &mut [u8], at: usize, word: u16)
    requires { at + 2 ≤ length bytes.old }
    ensures { bytes.new ≡ put_word bytes.old at word }
{
    let [high, low] = word_bytes(word);
    bytes[at] = high;
    bytes[at + 1] = low;
}

/// Writes an address into the four bytes from `at` on.
pub fn put_address(bytes: &mut [u8], at: usize, ip: Ip4)
    requires { at + 4 ≤ length bytes.old }
    ensures { bytes.new ≡ put_address bytes.old at ip }
{
    let (high, low) = address_words(ip);
    put_word(bytes, at, high);
    put_word(bytes, at + 2, low);
}
