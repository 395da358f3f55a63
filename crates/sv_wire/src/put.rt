//! Writing numbers, objects, values and actions at the end of a payload.
ghost use Rattle.std.specs.Prelude.{◌≡◌, ◌≤◌, ◌<◌, ◌++◌, length, All, OnOk};
ghost use Rattle.std.specs.Int.{w32, w64};
ghost use Rattle.std.specs.List.{flat_map};
ghost use Rattle.byteorder.specs.Endian.{big_bytes};
ghost use Rattle.sv_wire.specs.Fields.{most_seen};
ghost use Rattle.sv_wire.specs.Spelling.{int_bytes, object_bytes, value_bytes, held_bytes, head_bytes, result_bytes, point_bytes};
ghost use Rattle.sv_wire.specs.Grammar.{IsWireValue, IsWireResult};

use crate::message::{Done1, ObjectValue};
use byteorder::{BigEndian, ByteOrder};
use std::alloc::AllocError;
use sv_world::{ObjectId, Point, Value};

pub fn put_u16(out: &mut Vec<u8>, number: u16) -> Result<(), AllocError>
    ensures { OnOk result (out.new.items ≡ out.old.items ++ big_bytes 2 number) }
{
    let mut bytes = [0; 2];
    BigEndian::write_u16(&mut bytes, number);
    out.extend_from_slice(&bytes)?;
    Ok(())
}

pub fn put_u32(out: &mut Vec<u8>, number: u32) -> Result<(), AllocError>
    ensures { OnOk result (out.new.items ≡ out.old.items ++ big_bytes 4 number) }
{
    let mut bytes = [0; 4];
    BigEndian::write_u32(&mut bytes, number);
    out.extend_from_slice(&bytes)?;
    Ok(())
}

fn put_i32(out: &mut Vec<u8>, number: i32) -> Result<(), AllocError>
    ensures { OnOk result (out.new.items ≡ out.old.items ++ int_bytes w32 number) }
{
    let mut bytes = [0; 4];
    BigEndian::write_i32(&mut bytes, number);
    out.extend_from_slice(&bytes)?;
    Ok(())
}

pub fn put_i64(out: &mut Vec<u8>, number: i64) -> Result<(), AllocError>
    ensures { OnOk result (out.new.items ≡ out.old.items ++ int_bytes w64 number) }
{
    let mut bytes = [0; 8];
    BigEndian::write_i64(&mut bytes, number);
    out.extend_from_slice(&bytes)?;
    Ok(())
}

pub fn put_objects(out: &mut Vec<u8>, objects: &[ObjectId]) -> Result<(), AllocError>
    ensures { OnOk result (out.new.items ≡ out.old.items ++ flat_map object_bytes objects.now) }
{
    for object in objects {
        put_u16(out, object.0)?;
    }
    Ok(())
}

fn put_numbers(out: &mut Vec<u8>, numbers: &[i64]) -> Result<(), AllocError>
    ensures { OnOk result (out.new.items ≡ out.old.items ++ flat_map (int_bytes w64) numbers.now) }
{
    for number in numbers {
        put_i64(out, *number)?;
    }
    Ok(())
}

fn put_value(out: &mut Vec<u8>, value: &Value) -> Result<(), AllocError>
    requires { IsWireValue value.now }
    ensures { OnOk result (out.new.items ≡ out.old.items ++ value_bytes value.now) }
{
    out.push(value.len() as u8)?;
    put_numbers(out, value.as_slice())?;
    Ok(())
}

fn put_held(out: &mut Vec<u8>, held: &ObjectValue) -> Result<(), AllocError>
    requires { IsWireValue held.now.value }
    ensures { OnOk result (out.new.items ≡ out.old.items ++ held_bytes held.now) }
{
    put_u16(out, held.object.0)?;
    put_value(out, &held.value)?;
    Ok(())
}

fn put_helds(out: &mut Vec<u8>, head: &[ObjectValue]) -> Result<(), AllocError>
    requires { All (λ h. IsWireValue h.value) head.now }
    ensures { OnOk result (out.new.items ≡ out.old.items ++ flat_map held_bytes head.now) }
{
    for held in head {
        put_held(out, held)?;
    }
    Ok(())
}

pub fn put_head(out: &mut Vec<u8>, head: &[ObjectValue]) -> Result<(), AllocError>
    requires few { length head.now ≤ most_seen }
    requires values { All (λ h. IsWireValue h.value) head.now }
    ensures { OnOk result (out.new.items ≡ out.old.items ++ head_bytes head.now) }
{
    put_u16(out, head.len() as u16)?;
    put_helds(out, head)?;
    Ok(())
}

fn put_values(out: &mut Vec<u8>, values: &[Value]) -> Result<(), AllocError>
    requires { All IsWireValue values.now }
    ensures { OnOk result (out.new.items ≡ out.old.items ++ flat_map value_bytes values.now) }
{
    for value in values {
        put_value(out, value)?;
    }
    Ok(())
}

fn put_result(out: &mut Vec<u8>, found: &Done1) -> Result<(), AllocError>
    requires { IsWireResult found.now }
    ensures { OnOk result (out.new.items ≡ out.old.items ++ result_bytes found.now) }
{
    put_u32(out, found.pos)?;
    out.push(found.values.len() as u8)?;
    put_values(out, found.values.as_slice())?;
    Ok(())
}

pub fn put_results(out: &mut Vec<u8>, results: &[Done1]) -> Result<(), AllocError>
    requires { All IsWireResult results.now }
    ensures { OnOk result (out.new.items ≡ out.old.items ++ flat_map result_bytes results.now) }
{
    for found in results {
        put_result(out, found)?;
    }
    Ok(())
}

pub fn put_point(out: &mut Vec<u8>, point: Point) -> Result<(), AllocError>
    ensures { OnOk result (out.new.items ≡ out.old.items ++ point_bytes point) }
{
    put_i32(out, point.x)?;
    put_i32(out, point.y)?;
    Ok(())
}
