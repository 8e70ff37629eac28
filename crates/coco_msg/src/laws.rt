//! What bytes say of messages.

ghost use Rattle.std.specs.Prelude.{◌≡◌};
ghost use Rattle.coco_msg.specs.Bytes.{bytes_of, IsMessage};
ghost use Rattle.coco_msg.specs.declared.message.Message.{Message as Told};

/// No two messages have the same bytes.
pub fn bytes_tell_messages_apart()
    ensures { (a : Told) (b : Told) → IsMessage a → IsMessage b → bytes_of a ≡ bytes_of b → a ≡ b }
{}
