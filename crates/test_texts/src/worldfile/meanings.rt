//! What world files mean.
ghost use Rattle.std.specs.Prelude.{IfOk};
ghost use Rattle.sv_worldfile.specs.Limits.{IsGoodWorldFile};

use crate::worldfile::lines::{is_line, quoted};
use std::alloc::Global;
use std::test::Fail;
use sv_lists::List;
use sv_world::{NumberRange, Right, Shape, Value};
use sv_worldfile::{Results, WorldFile, read_world};

/// Texts of world files.
const READ: &str = "\
{'attrs':1,'objects':[[5]],'bound':4}
{'attrs':4,'objects':[[1,2,3,4]],'bound':4}
{'attrs':1,'objects':[[5]],'bound':0}
{'attrs':1,'objects':[[5]],'bound':32}
{'attrs':1,'objects':[[5]],'bound':4,'reach':0}
{'attrs':1,'objects':[[5]],'bound':4,'reach':2000000}
{'attrs':1,'objects':[[5]],'bound':4,'rights':[]}
{'attrs':1,'objects':[[5]],'bound':4,'rights':[{'clients':[0,0],'objects':[0,0]}]}
{'attrs':1,'objects':[[5]],'bound':4,'rights':[{'objects':[0,0],'clients':[65535,65535]}]}
{'attrs':1,'objects':[[5],[6]],'bound':4,'rights':[{'clients':[0,65535],'objects':[0,1]},{'clients':[0,65535],'objects':[0,1]}]}
{'attrs':1,'objects':[[5]],'bound':4,'results':'first'}
{'attrs':1,'objects':[[5]],'bound':4,'results':'authority'}
{'results':'authority','rights':[],'reach':5,'bound':0,'objects':[[-9223372036854775808,9223372036854775807]],'attrs':2}
{'attrs':9,'objects':[[5]],'bound':4,'attrs':1}
{'\\u0061ttrs':1,'objects':[[5]],'bound':4,'results':'\\u0066irst'}
 \t {'attrs':1,'objects':[[5]],'bound':4}\t ";

fn is_read(alloc: Global, text: &str) -> Result<bool, Fail> {
    let bytes = quoted(alloc, text)?;
    is_line(alloc, &bytes, "read")
}

#[test]
fn reads_world_files(rt: HostRuntime) -> Result<(), Fail> {
    for line in READ.lines() {
        assert!(rt; is_read(rt.alloc(), line)?, "{line}");
    }
    Ok(())
}

fn world_file(alloc: Global, text: &str) -> Result<WorldFile, Fail>
    ensures { IfOk result IsGoodWorldFile }
{
    let bytes = quoted(alloc, text)?;
    match read_world(alloc, &bytes) {
        Ok(file) => Ok(file),
        Err(_fault) => Err(Fail::from("it is no world file")),
    }
}

/// What a file means but for its world.
#[derive(Clone, Copy, Drop)]
struct Meaning {
    bound: u8,
    reach: Option<u32>,
    rights: Option<&'static [Right]>,
    results: Results,
}

fn are_rights(rights: &Option<List<Right>>, wanted: Option<&'static [Right]>) -> bool {
    match (rights, wanted) {
        (None, None) => true,
        (Some(rights), Some(wanted)) => rights.as_slice() == wanted,
        _ => false,
    }
}

fn means(file: &WorldFile, meaning: &Meaning) -> bool {
    file.bound == meaning.bound
        && file.reach == meaning.reach
        && are_rights(&file.rights, meaning.rights)
        && file.results == meaning.results
}

/// Whether the text means so much.
fn is_meant(alloc: Global, text: &str, meaning: &Meaning) -> Result<bool, Fail> {
    let file = world_file(alloc, text)?;
    let is_so = means(&file, meaning);
    drop(file);
    Ok(is_so)
}

const PLAIN: Meaning = Meaning {
    bound: 4,
    reach: None,
    rights: None,
    results: Results::First,
};

const NOBODY: &[Right] = &[];

const TWO: &[Right] = &[
    Right {
        clients: NumberRange {
            first: 0,
            last: 65_535,
        },
        objects: NumberRange { first: 1, last: 2 },
    },
    Right {
        clients: NumberRange { first: 7, last: 9 },
        objects: NumberRange { first: 0, last: 0 },
    },
];

#[test]
fn reads_what_the_text_says(rt: HostRuntime) -> Result<(), Fail> {
    for (text, meaning) in [
        ("{'attrs':1,'objects':[[5]],'bound':4}", PLAIN),
        (
            "{'attrs':1,'objects':[[5]],'bound':32}",
            Meaning { bound: 32, ..PLAIN },
        ),
        (
            "{'attrs':1,'objects':[[5]],'bound':4,'reach':0}",
            Meaning {
                reach: Some(0),
                ..PLAIN
            },
        ),
        (
            "{'attrs':1,'objects':[[5]],'bound':4,'rights':[]}",
            Meaning {
                rights: Some(NOBODY),
                ..PLAIN
            },
        ),
        (
            "{'attrs':1,'objects':[[5]],'bound':4,'results':'first'}",
            PLAIN,
        ),
        (
            "{'attrs':1,'objects':[[5]],'bound':4,'results':'authority'}",
            Meaning {
                results: Results::Authority,
                ..PLAIN
            },
        ),
        (
            "{'attrs':1,'objects':[[5],[6],[7]],'bound':0,'reach':2000000,'rights':[{'clients':[0,65535],'objects':[1,2]},{'clients':[7,9],'objects':[0,0]}],'results':'authority'}",
            Meaning {
                bound: 0,
                reach: Some(2_000_000),
                rights: Some(TWO),
                results: Results::Authority,
            },
        ),
    ] {
        assert!(rt; is_meant(rt.alloc(), text, &meaning)?, "{text}");
    }
    Ok(())
}

fn are_numbers(value: &Value, numbers: &[i64]) -> bool {
    value.as_slice() == numbers
}

fn is_two_by_two(file: &WorldFile) -> bool {
    let shape = Shape {
        objects: 2,
        attrs: 2,
    };
    let [first, second] = file.world.values.as_slice() else {
        return false;
    };
    file.world.shape == shape
        && are_numbers(first, &[i64::MIN, i64::MAX])
        && are_numbers(second, &[0, -1])
}

fn is_world_read(alloc: Global) -> Result<bool, Fail> {
    let text =
        "{'attrs':2,'objects':[[-9223372036854775808,9223372036854775807],[0,-1]],'bound':4}";
    let file = world_file(alloc, text)?;
    let is_so = is_two_by_two(&file);
    drop(file);
    Ok(is_so)
}

#[test]
fn reads_the_world(rt: HostRuntime) -> Result<(), Fail> {
    assert!(rt; is_world_read(rt.alloc())?);
    Ok(())
}
