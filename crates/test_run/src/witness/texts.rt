//! Scenarios of witnessed runs.
use test_calls::scenarios::LOOK;

/// A client that adds 1 to object 0, and two that poll.
const PROGRAM: &str =
    r#"{"attrs":1,"objects":[[0]],"bound":4,"clients":[{"interest":[],"steps":[{"act":"reads 0 writes 0 { set @0.0 (@0.0 + 1); }"}]},{"interest":[],"steps":["poll"]},{"interest":[],"steps":["poll"]}]}"#;

/// Three clients in conflict over one object. The first two poll for what the others' actions write.
const CONFLICT: &str =
    r#"{"attrs":1,"objects":[[10]],"bound":4,"clients":[{"interest":[],"steps":[{"act":"reads 0 writes 0 { set @0.0 (@0.0 * 2); }"},"poll","poll"]},{"interest":[],"steps":[{"act":"reads 0 writes 0 { set @0.0 (@0.0 + 1); }"},"poll"]},{"interest":[],"steps":[{"act":"reads 0 writes 0 { set @0.0 (@0.0 - 3); }"}]}]}"#;

/// An action that writes three objects, two of which have the greatest number, which no lie can raise.
const THREE: &str =
    r#"{"attrs":1,"objects":[[9223372036854775807],[9223372036854775807],[4]],"bound":4,"clients":[{"interest":[],"steps":[{"act":"reads 0 1 2 writes 0 1 2 { set @2.0 (@2.0 + 1); }"}]},{"interest":[],"steps":["poll"]},{"interest":[],"steps":["poll"]}]}"#;

/// An object of two numbers, of which the second is set.
const PAIR: &str =
    r#"{"attrs":2,"objects":[[1,2]],"bound":4,"clients":[{"interest":[],"steps":[{"act":"reads 0 writes 0 { set @0.1 (@0.1 + 1); }"}]},{"interest":[],"steps":["poll"]},{"interest":[],"steps":["poll"]}]}"#;

/// A client that acts, cuts its connection, joins again and acts once more, and two that poll all the while.
const REJOINS: &str =
    r#"{"attrs":1,"objects":[[0]],"bound":4,"clients":[{"interest":[],"steps":[{"act":"reads 0 writes 0 { set @0.0 (@0.0 + 1); }"},"sync","cut",{"act":"reads 0 writes 0 { set @0.0 (@0.0 + 10); }"}]},{"interest":[],"steps":["poll","poll","poll","poll","poll","poll","poll","poll"]},{"interest":[],"steps":["poll","poll","poll","poll","poll","poll","poll","poll"]}]}"#;

/// A client by itself.
const ALONE: &str =
    r#"{"attrs":1,"objects":[[5]],"bound":4,"clients":[{"interest":[],"steps":[{"act":"reads 0 writes 0 { set @0.0 (@0.0 + 1); }"}]}]}"#;

/// A client by itself, with three actions in a row where one may wait.
const CHAIN: &str =
    r#"{"attrs":1,"objects":[[0]],"bound":1,"clients":[{"interest":[],"steps":[{"act":"reads 0 writes 0 { set @0.0 (@0.0 + 1); }"},"sync",{"act":"reads 0 writes 0 { set @0.0 (@0.0 + 1); }"},"sync",{"act":"reads 0 writes 0 { set @0.0 (@0.0 + 1); }"}]}]}"#;

/// Each file's name and text. The last one is no scenario.
pub const FILES: [(&str, &str); 9] = [
    ("program.json", PROGRAM),
    ("conflict.json", CONFLICT),
    ("three.json", THREE),
    ("pair.json", PAIR),
    ("rejoins.json", REJOINS),
    ("alone.json", ALONE),
    ("look.json", LOOK),
    ("chain.json", CHAIN),
    ("none.json", "{}"),
];
