//! Tests of bodies that are built in Rust, beside the texts that say the same.
use std::alloc::Global;
use std::test::Fail;
use sv_build::{Block, BuildError, body_of, get, number, set, when};
use sv_text::parse_action;
use sv_world::same_body;

/// Where slot 0 has 5 of attribute 2, it gives them to slot 1.
const PAYS: &str =
    "reads 3 7 writes 3 7 { if [5 <= @3.2] { set @3.2 (@3.2 - 5); set @7.2 (@7.2 + 5); } }";

/// An `else`, three statements, and the operators that `PAYS` has not.
const MIXES: &str =
    "reads 3 7 writes 3 7 { if (not [(@3.0 % 2) == 1] or ([@3.0 < 1] and [@3.1 <= @3.0])) { } else { set @3.0 ((@3.0 * 3) / @3.1); set @3.1 (@3.0 min 1); set @7.0 (1 max @7.0); } }";

fn is_text<B: Block>(alloc: Global, block: B, text: &str) -> Result<bool, Fail> {
    if text.len() > 4096 {
        return Err(Fail::from("the text is long"));
    }
    let body = match body_of(alloc, block) {
        Ok(body) => body,
        Err(BuildError::LongBlock) => return Err(Fail::from("a block is long")),
        Err(BuildError::Memory) => return Err(Fail::from("out of memory")),
    };
    let Ok(action) = parse_action(alloc, text) else {
        drop(body);
        return Err(Fail::from("it is no text"));
    };
    let same = same_body(&body, &action.body);
    drop(body);
    drop(action);
    Ok(same)
}

#[test]
fn what_is_built_is_what_the_text_says(rt: HostRuntime) -> Result<(), Fail> {
    let mine = get(0, 2);
    let trade = (set(0, 2, mine - 5), set(1, 2, get(1, 2) + 5));
    let pays = when(number(5).le(mine), trade, ());
    assert!(rt; is_text(rt.alloc(), pays, PAYS)?, "pays");
    let (a, b) = (get(0, 0), get(0, 1));
    let far = !(a % 2).eq(1) | a.lt(1) & b.le(a);
    let changes = (
        set(0, 0, a * 3 / b),
        set(0, 1, a.min(1)),
        set(1, 0, number(1).max(get(1, 0))),
    );
    assert!(rt;
        is_text(rt.alloc(), when(far, (), changes), MIXES)?,
        "mixes"
    );
    assert!(rt; !is_text(rt.alloc(), when(far, (), ()), MIXES)?, "another");
    Ok(())
}
