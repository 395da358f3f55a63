//! Scenarios that are not in the folder examples/, and what a server prints of its first one.

/// An increment of the greatest number, which is void.
pub const FULL: &str =
    r#"{"attrs":1,"objects":[[9223372036854775807]],"bound":4,"clients":[{"interest":[0],"steps":[{"act":"reads 0 writes 0 { set @0.0 (@0.0 + 1); }"},"sync",{"show":[0]}]}]}"#;

/// A bound of 0: the second of two actions on one object is dropped.
pub const BOUND_0: &str =
    r#"{"attrs":1,"objects":[[5]],"bound":0,"clients":[{"interest":[0],"steps":[{"act":"reads 0 writes 0 { set @0.0 (@0.0 + 1); }"},{"act":"reads 0 writes 0 { set @0.0 (@0.0 + 1); }"}]}]}"#;

/// Two clients with one action each, on objects of their own.
pub const APART: &str =
    r#"{"attrs":1,"objects":[[1],[2]],"bound":4,"clients":[{"interest":[],"steps":[{"act":"reads 0 writes 0 { set @0.0 (@0.0 + 1); }"}]},{"interest":[],"steps":[{"act":"reads 1 writes 1 { set @1.0 (@1.0 + 1); }"}]}]}"#;

/// A client that cuts twice and rejoins, one that quits, and one that cuts at its end.
pub const REJOINING: &str =
    r#"{"attrs":1,"objects":[[0]],"bound":32,"clients":[{"interest":[0],"steps":[{"act":"reads 0 writes 0 { set @0.0 (@0.0 + 1); }"},"cut","sync",{"act":"reads 0 writes 0 { set @0.0 (@0.0 + 1); }"},"cut","poll","sync",{"show":[0]}]},{"interest":[],"steps":["poll","quit"]},{"interest":[],"steps":["sync","cut"]}]}"#;

/// A client that looks at an object.
pub const LOOK: &str =
    r#"{"attrs":1,"objects":[[5]],"bound":4,"clients":[{"interest":[],"steps":[{"act":"reads 0 writes { }"}]}]}"#;

/// What `serve` prints of the first example, where its client plays its script.
pub const FIRST_SERVED: &str =
    "journal 5\n1 s0 join c0 1 [0] -> welcome 0 [0=(5)]\n2 s0 submit 1 reads 0 writes 0 { set @0.0 (@0.0 + 1); } -> relay 1 at 0 [] [1:c0.1]\n3 s0 done [1:(6)] -> noted 1\n4 s0 leave -> bye\n5 s0 end -> bye\ncommit 1\n";
