//! What the keys are for.

ghost use Rattle.run.specs.Laws.{KeysKeepOrder, KeysOneToOne, KeysReadBack, StretchesHold};

/// A key is less than another exactly if its fields come before the other's, the vault first. In
/// a minute of a vault an arrival comes before every departure.
pub fn keys_keep_order()
    ensures { KeysKeepOrder }
{}

/// Two keys are equal only if all their fields are.
pub fn keys_one_to_one()
    ensures { KeysOneToOne }
{}

/// Every field of a key is read back as it was packed.
pub fn keys_read_back()
    ensures { KeysReadBack }
{}

/// A stretch holds the keys of its vault and its minutes, and no others.
pub fn stretches_hold()
    ensures { StretchesHold }
{}
