// Laws of the parts of a message.
ghost use Rattle.std.specs.Prelude.{ℕ, List, length};
ghost use Rattle.model_mime.specs.Parts.{parts_in, InOrder};

/// The parts of a message stand in order and apart, within the message.
pub fn parts_stand_in_order()
    ensures { (message : List ℕ) → InOrder 0 (length message) (parts_in message) }
{}
