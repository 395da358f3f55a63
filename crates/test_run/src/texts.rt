//! Scenarios, and what is printed of some, beside those of examples/.

/// The report of the first example, and what its client was told.
pub const FIRST_WATCHED: &str =
    "journal 5\n1 s0 join c0 1 [0] -> welcome 0 [0=(5)]\n2 s0 submit 1 reads 0 writes 0 { set @0.0 (@0.0 + 1); } -> relay 1 at 0 [] [1:c0.1]\n3 s0 done [1:(6)] -> noted 1\n4 s0 leave -> bye\n5 s0 end -> bye\nclient 0\njoin s0\ngot s0 #1\nmake 1 kept [0=(6)]\ngot s0 #2\ngot s0 #3\nshow [0=(6)]\nleave\ngot s0 #4\nworld 1\n0=(6)\ntold c0 2 0 ? -> (5)\ntold c0 3 0 (5) -> (6)\n";

pub const FIRST_BRIEF: &str =
    "clients 1\nsessions 1\nobjects 1\nmade 1\naccepted 1\ndropped 0\ncommit 1\ntotal 0: 6\n";

/// Three actions, none of which waits for a result.
pub const BURST: &str =
    r#"{"attrs":1,"objects":[[5]],"bound":4,"clients":[{"interest":[],"steps":[{"act":"reads 0 writes 0 { set @0.0 (@0.0 + 1); }"},{"act":"reads 0 writes 0 { set @0.0 (@0.0 + 1); }"},{"act":"reads 0 writes 0 { set @0.0 (@0.0 + 1); }"}]}]}"#;

pub const BURST_BRIEF: &str =
    "clients 1\nsessions 1\nobjects 1\nmade 3\naccepted 3\ndropped 0\ncommit 3\ntotal 0: 8\n";

/// A client that asks for what was abandoned, and quits without waiting for the reply.
pub const QUITTING: &str =
    r#"{"attrs":1,"objects":[[5]],"bound":4,"clients":[{"interest":[],"steps":["poll","quit"]}]}"#;

pub const QUITTING_BRIEF: &str =
    "clients 1\nsessions 1\nobjects 1\nmade 0\naccepted 0\ndropped 0\ncommit 0\ntotal 0: 5\n";

pub const BOUND_0_BRIEF: &str =
    "clients 1\nsessions 1\nobjects 1\nmade 2\naccepted 1\ndropped 1\ncommit 1\ntotal 0: 6\n";

pub const APART_BRIEF: &str =
    "clients 2\nsessions 2\nobjects 2\nmade 2\naccepted 2\ndropped 0\ncommit 2\ntotal 0: 5\n";

/// Both actions of the client that rejoins twice are accepted, each once.
pub const REJOINING_BRIEF: &str =
    "clients 3\nsessions 6\nobjects 1\nmade 2\naccepted 2\ndropped 0\ncommit 2\ntotal 0: 2\n";

/// The sums of the opening world, one of which is no number of 64 bits.
pub const GREAT_TOTALS_BRIEF: &str =
    "clients 1\nsessions 1\nobjects 2\nmade 0\naccepted 0\ndropped 0\ncommit 0\ntotal 0: 18446744073709551614\ntotal 1: -2\n";

pub const WORDS_LINE: &str = "words: play FILE [--brief | --watch] | replay FILE | load N\n";

pub const LOAD_1: &str =
    "load 1\nclients 2\nsessions 2\nobjects 4\nmade 32\naccepted 32\ndropped 0\ncommit 32\ntotal 0: 406\ntotal 1: 32\n";

pub const LOAD_16: &str =
    "load 16\nclients 32\nsessions 32\nobjects 64\nmade 512\naccepted 512\ndropped 0\ncommit 512\ntotal 0: 8416\ntotal 1: 512\n";

pub const LOAD_192: &str =
    "load 192\nclients 32\nsessions 32\nobjects 768\nmade 6144\naccepted 6144\ndropped 0\ncommit 6144\ntotal 0: 371328\ntotal 1: 6144\n";
