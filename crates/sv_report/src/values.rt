//! The committed world.
ghost use Rattle.std.specs.Prelude.{◌≡◌, ◌++◌, string_bytes, OnOk, OnErr};
ghost use Rattle.sv_report.specs.Report.{value_lines, world_text};

use std::alloc::AllocError;
use sv_journal::append_value;
use sv_world::Value;

/// Appends the commit, and the values of all objects, each on a line, as `0=(5)`: all of it or nothing.
pub fn append_world(commit: u32, values: &[Value], out: &mut String) -> Result<(), AllocError>
    ensures ok { OnOk result (string_bytes out.new ≡ string_bytes out.old ++ world_text commit values.now) }
    ensures err { OnErr result (string_bytes out.new ≡ string_bytes out.old) }
{
    let mut text = String::new(*out.allocator());
    write!(text, "world {commit}\n")?;
    append_value_lines(values, &mut text)?;
    out.push_str(&text)
}

fn append_value_lines(values: &[Value], out: &mut String) -> Result<(), AllocError>
    ensures { OnOk result (string_bytes out.new ≡ string_bytes out.old ++ value_lines 0 values.now) }
{
    for (object, value) in values.iter().enumerate() {
        write!(out, "{object}=")?;
        append_value(value.as_slice(), out)?;
        out.push_str("\n")?;
    }
    Ok(())
}
