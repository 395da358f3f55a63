//! What the program can tell of itself. Each command has its two lines here, and nowhere else.

/// What is asked for by one word alone.
#[derive(Clone, Copy, Debug, Drop, PartialEq, Eq)]
pub enum Notice {
    /// `--help`: the commands, the statuses, and where to read on.
    Help,

    /// `--version`.
    Version,
}

/// What `--help` prints. `./dimboetu` prints it from this file too, where the program is not built yet.
pub const HELP: &str =
    r#"Dimboetu runs shared worlds. It puts what the players do in one order, sends each player what its own
actions need, and keeps the one world that comes out.

  dimboetu replay FILE           runs a scenario turn by turn, always the same, and prints the report
                                 dimboetu replay examples/trade.json
  dimboetu play FILE             runs it with threads and connections of this machine, and prints the report
                                 dimboetu play examples/trade.json
  dimboetu play FILE --brief     the same, and prints counts and sums alone
                                 dimboetu play examples/marketplace.json --brief
  dimboetu play FILE --watch     the report, and a line for each change of what a player sees
                                 dimboetu play examples/trade.json --watch
  dimboetu looks FILE            runs a scenario as replay does, and prints what its looks at several objects saw
                                 dimboetu looks examples/looks.json
  dimboetu witness FILE          runs a scenario where a result counts once two players reported it, and prints the world
                                 dimboetu witness examples/trade.json
  dimboetu witness FILE K        the same where player K lies, and prints what is in dispute
                                 dimboetu witness examples/trade.json 0
  dimboetu load N                plays a made-up world of size N, 1 to 192, and prints counts and sums
                                 dimboetu load 4
  dimboetu serve FILE PORT       waits for the players of a world at a port of this machine, and serves them
                                 dimboetu serve examples/conflict.json 4000
  dimboetu host WORLD DIR        serves a world without end, and keeps its log in the folder DIR
                                 dimboetu host world.json world --at 127.0.0.1:4000
  dimboetu join FILE K PORT      plays client K of a scenario at such a server
                                 dimboetu join examples/conflict.json 0 4000
  dimboetu check SCENARIO REPORT
                                 says yes where a report, or what serve printed, is right, or names its first wrong line
                                 dimboetu check examples/trade.json examples/trade.out
  dimboetu why SCENARIO REPORT OBJECT POSITION
                                 prints the actions that an object's value at a position comes from, and the value
                                 dimboetu why examples/conflict.json examples/conflict.out 0 2
  dimboetu world SCENARIO REPORT
                                 prints the world that all actions of such a report give
                                 dimboetu world examples/trade.json examples/trade.out
  dimboetu --help, --version     prints this, or the version

A run ends with a status, and each but 0 with one line on standard error:
  0 all was printed              5 standard output failed            9 check, why, world: a wrong line
  2 the words are no command     6 a connection failed              10 join, witness: no client K; why: no such object or position
  3 the file is no scenario      7 a thread could not be started    11 join: the server sent a wrong reply
  4 a file can't be read         8 out of memory                    12 join: the server closed too early
 13 host: the log is refused           14 host: another has the folder or the address

Read on: README.md (what this is good for), docs/TUTORIAL.md (a first game), docs/ACTIONS.md (the language of
actions), docs/HOSTING.md (a world that goes on), docs/EMBEDDING.md (your own program in it), docs/PATTERNS.md (whole
actions to copy), docs/ERRORS.md (what can go wrong, and what to do), docs/WITNESS.md (a world with a liar in it).
"#;

/// What `--version` prints.
pub const VERSION: &str = "dimboetu 0.9.0\n";
