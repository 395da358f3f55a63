//! A law of the messages that show keys: a function that does nothing, and whose contract is the law.
ghost use Rattle.sv_peer.specs.Hellos.{KeysAreHeard, HellosAreKeys};

/// The message of a key is heard as its digest, and nothing else is heard as a digest.
pub fn hellos_show_keys()
    ensures heard { KeysAreHeard }
    ensures only { HellosAreKeys }
{}
