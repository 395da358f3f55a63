//! Sums over the committed world.
ghost use Rattle.std.specs.Prelude.{◌≡◌, ◌++◌, pos, slice_index_or, string_bytes, OnOk};
ghost use Rattle.sv_report.specs.Summary.{total_of, total_line, total_lines};

use std::alloc::AllocError;
use sv_world::Value;

fn number_at(value: &[i64], attr: usize) -> i64
    ensures { result ≡ slice_index_or value.now attr (pos 0) }
{
    match value.get(attr) {
        Some(number) => *number,
        None => 0,
    }
}

/// The sum of an attribute over values. Of as many values as memory has the sum is within 128 bits.
fn total_of(attr: usize, values: &[Value]) -> i128
    ensures { result ≡ total_of attr values.now }
{
    let mut total = 0;
    for value in values {
        total += i128::from(number_at(value.as_slice(), attr));
    }
    total
}

/// Appends the line of an attribute's total, as `total 0: 406`.
fn append_total(attr: u8, values: &[Value], out: &mut String) -> Result<(), AllocError>
    ensures { OnOk result (string_bytes out.new ≡ string_bytes out.old ++ total_line attr values.now) }
{
    let total = total_of(usize::from(attr), values);
    write!(out, "total {attr}: {total}\n")
}

/// Appends the total of each attribute, a line for each.
pub(crate) fn append_totals(attrs: u8, values: &[Value], out: &mut String) -> Result<(), AllocError>
    ensures { OnOk result (string_bytes out.new ≡ string_bytes out.old ++ total_lines 0 attrs values.now) }
{
    for attr in 0..attrs {
        append_total(attr, values, out)?;
    }
    Ok(())
}
