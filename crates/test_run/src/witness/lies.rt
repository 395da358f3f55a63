//! What witnessed runs print, with each of their clients as the liar. All was worked out by hand from the rules.
use crate::witness::calls::called;
use std::test::Fail;

/// What a run of three clients in conflict prints where none lies. The world is 10 * 2 + 1 - 3.
const AGREED: &str = "accepted 3\nworld 3\n0=(18)\n";

/// A line of words, and what is printed.
const ROWS: [(&str, &str); 20] = [
    // Its first two reports are equal where the last client lies: its own comes too late to count.
    ("witness program.json", "accepted 1\nworld 1\n0=(1)\n"),
    (
        "witness program.json 0",
        "accepted 1\ndispute 1 c0 (2) c1 (1)\nworld 1\n0=(1)\n",
    ),
    (
        "witness program.json 1",
        "accepted 1\ndispute 1 c0 (1) c1 (2)\nworld 1\n0=(1)\n",
    ),
    ("witness program.json 2", "accepted 1\nworld 1\n0=(1)\n"),
    // Each report comes with the next round, and polls bring one position each.
    ("witness conflict.json", AGREED),
    (
        "witness conflict.json 0",
        "accepted 3\ndispute 1 c0 (21) c1 (20)\nworld 3\n0=(18)\n",
    ),
    (
        "witness conflict.json 1",
        "accepted 3\ndispute 1 c0 (20) c1 (21)\ndispute 2 c1 (22) c2 (21)\ndispute 3 c2 (18) c1 (19)\nworld 3\n0=(18)\n",
    ),
    (
        "witness conflict.json 2",
        "accepted 3\ndispute 2 c1 (21) c2 (22)\ndispute 3 c2 (19) c1 (18)\nworld 3\n0=(18)\n",
    ),
    // One of three written objects can be lied about. The whole values of both are printed.
    (
        "witness three.json 0",
        "accepted 1\ndispute 1 c0 (9223372036854775807)(9223372036854775807)(6) c1 (9223372036854775807)(9223372036854775807)(5)\nworld 1\n0=(9223372036854775807)\n1=(9223372036854775807)\n2=(5)\n",
    ),
    (
        "witness three.json 1",
        "accepted 1\ndispute 1 c0 (9223372036854775807)(9223372036854775807)(5) c1 (9223372036854775807)(9223372036854775807)(6)\nworld 1\n0=(9223372036854775807)\n1=(9223372036854775807)\n2=(5)\n",
    ),
    // The lie is in an object's first number alone.
    ("witness pair.json", "accepted 1\nworld 1\n0=(1,3)\n"),
    (
        "witness pair.json 0",
        "accepted 1\ndispute 1 c0 (2,3) c1 (1,3)\nworld 1\n0=(1,3)\n",
    ),
    // A client that lies in both of its sessions.
    ("witness rejoins.json", "accepted 2\nworld 2\n0=(11)\n"),
    (
        "witness rejoins.json 0",
        "accepted 2\ndispute 1 c0 (2) c1 (1)\ndispute 2 c0 (12) c1 (11)\nworld 2\n0=(11)\n",
    ),
    // A client alone has nothing installed but looks, and its actions wait in a chain.
    ("witness alone.json", "accepted 1\nworld 0\n0=(5)\n"),
    ("witness alone.json 0", "accepted 1\nworld 0\n0=(5)\n"),
    ("witness look.json", "accepted 1\nworld 1\n0=(5)\n"),
    ("witness look.json 0", "accepted 1\nworld 1\n0=(5)\n"),
    ("witness chain.json", "accepted 2\nworld 0\n0=(0)\n"),
    ("witness chain.json 0", "accepted 2\nworld 0\n0=(0)\n"),
];

#[test]
fn runs_are_printed(rt: HostRuntime) -> Result<(), Fail> {
    for (line, out) in ROWS {
        let printed = called(rt.alloc(), line)?;
        assert!(&rt; printed.is(0, out, ""), "{line}");
    }
    Ok(())
}
