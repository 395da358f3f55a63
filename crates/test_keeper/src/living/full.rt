//! No position is left.
use super::{NOBODY, Setting, check_on};
use std::alloc::Global;
use std::test::Fail;
use sv_core::Opened;
use sv_living::LivingCore;
use test_asked::world_of;

const SETTING: Setting = Setting {
    numbers: &[10, 20],
    bound: 32,
    rights: None,
    stewards: NOBODY,
    before: 0,
};

/// There are two positions. What was accepted is answered again, a wrong number is told first, and a result frees no position.
const FULL: &str = "\
1 s0 join c0 1 [] -> welcome 0 []
2 s0 submit 1 reads 0 writes 0 { set @0.0 (@0.0 + 1); } -> relay 1 at 0 [0=(10)] [1:c0.1]
3 s0 submit 2 reads 1 writes { } -> relay 2 at 0 [1=(20)] [2:c0.2]
4 s0 submit 3 reads 0 writes { } -> refused 12 0
5 s0 submit 2 reads 1 writes { } -> relay 2 at 0 [] []
6 s0 submit 4 reads 1 writes { } -> refused 5 3
7 s0 done [1:(11)] -> noted 1
8 s0 submit 3 reads 0 writes { } -> refused 12 0
9 s0 submit 1 reads 0 writes 0 { set @0.0 (@0.0 + 1); } -> settled 1 at 1
";

fn of_two_positions(alloc: Global) -> Result<LivingCore, Fail> {
    let world = world_of(alloc, SETTING.numbers)?;
    let opened = Opened::living(world, SETTING.bound, None, None).with_positions(2);
    Ok(LivingCore::new(alloc, opened, NOBODY)?)
}

#[test]
fn third_action(rt: HostRuntime) -> Result<(), Fail> {
    let mut core = of_two_positions(rt.alloc())?;
    let told = check_on(rt.alloc(), &mut core, SETTING, FULL);
    drop(core);
    told
}
