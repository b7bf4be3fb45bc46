ghost use Rattle.std.specs.Prelude.{◌≡◌, List, ℕ, Ok, Some};
ghost use Rattle.control_msg.specs.Frames.{Framed, frame_at, frame_bytes};
ghost use Rattle.control_msg.specs.Messages.{IsMessage, message_bytes};
ghost use Rattle.control_msg.specs.Reading.{message_at};
ghost use Rattle.control_msg.specs.declared.message.Message.{Message};
ghost use Rattle.wire_core.specs.Numbers.{AreBytes};

/// Each message has one spelling: what is spelled is read again, and what is read is spelled so and allowed. So
/// [`crate::decode`] answers `Ok(m)` exactly where the bytes are the spelling of `m` and the fields of `m` are allowed.
pub fn message_spelling()
    ensures again { (m : Message) → IsMessage m → message_at (message_bytes m) ≡ Ok m }
    ensures spelled { (bytes : List ℕ) (m : Message) → AreBytes bytes → message_at bytes ≡ Ok m
        → (bytes ≡ message_bytes m) × IsMessage m }
{}

/// Each frame has one spelling.
pub fn frame_spelling()
    ensures again { (f : Framed) → frame_at (frame_bytes f) ≡ Some f }
    ensures spelled { (bytes : List ℕ) (f : Framed) → frame_at bytes ≡ Some f → bytes ≡ frame_bytes f }
{}
