//! Lines that tell no request.
use crate::entries::check::SHAPE;
use std::alloc::Global;
use std::test::Fail;
use sv_entries::line_at;
use sv_lines::LineFault;

const WRONG: [&str; 26] = [
    "",
    "\n",
    "1",
    "1 s",
    "1 s0",
    "1 s0 ",
    "1 s0 pole -> idle\n",
    " 1 s0 poll -> idle\n",
    "1 s 0 poll -> idle\n",
    "1s0 poll -> idle\n",
    "-1 s0 poll -> idle\n",
    "18446744073709551616 s0 poll -> idle\n",
    "1 s18446744073709551616 poll -> idle\n",
    "1 s0 join c65536 1 [] -> idle\n",
    "1 s0 join c0 4294967296 [] -> idle\n",
    "1 s0 join c0 1 [0 65536] -> idle\n",
    "1 s0 join c0 1 [0 1 -> idle\n",
    "1 s0 observe 65536 [0] -> idle\n",
    "1 s0 done [4294967296:(1,1)] -> noted 1\n",
    "1 s0 done [1:(9223372036854775808)] -> noted 1\n",
    "1 s0 submit 4294967296 bad -> refused 6 1\n",
    "1 s0 submit 1 bad\n",
    "1 s0 submit 1 reads 0 writes { -> idle\n",
    "1 s0 submit 1 reads 70 writes { } -> idle\n",
    "1 s0 submit 1 reads 0 writes 0 { set @0.2 1; } -> idle\n",
    "1 s0 submit 1 reads 0 writes { }\n",
];

fn is_wrong(alloc: Global, line: &str) -> bool {
    match line_at(alloc, SHAPE, line.as_bytes()) {
        Ok(asked) => {
            drop(asked);
            false
        }
        Err(LineFault::Wrong) => true,
        Err(LineFault::Memory) => false,
    }
}

#[test]
fn other_lines_tell_nothing(rt: HostRuntime) -> Result<(), Fail> {
    for line in &WRONG {
        if !is_wrong(rt.alloc(), line) {
            return Err(Fail::new(format_args!("it is read: {line}")));
        }
    }
    Ok(())
}
