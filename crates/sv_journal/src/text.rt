//! Values and objects as they are printed.
ghost use mathlib.Core.List.{IsPrefix};
ghost use Rattle.std.specs.Prelude.{◌≡◌, ◌∷◌, ◌++◌, take, string_bytes, OnOk, OnErr};
ghost use Rattle.std.specs.String.Boundary.{IsSplitPoint};
ghost use Rattle.std.specs.List.{flat_map};
ghost use Rattle.std.specs.Fmt.{decimal, signed_decimal};
ghost use Rattle.sv_world.specs.declared.world.ObjectId.{ObjectId};
ghost use Rattle.sv_journal.specs.Pieces.{joined, value_text, held_text, objects_text};

use itoa::Buffer;
use std::alloc::AllocError;
use sv_world::ObjectId;

/// Appends a value, as `(5,-1)`. Like all that append here, where memory runs out it leaves `out` as it was.
pub fn append_value(value: &[i64], out: &mut String) -> Result<(), AllocError>
    ensures ok { OnOk result (string_bytes out.new ≡ string_bytes out.old ++ value_text value.now) }
    ensures err { OnErr result (string_bytes out.new ≡ string_bytes out.old) }
{
    let len = out.len();
    let put = put_value(value, out);
    whole_or_cut(out, len, put)
}

/// Appends an object with its value, as `3=(5,-1)`.
pub fn append_held(object: ObjectId, value: &[i64], out: &mut String) -> Result<(), AllocError>
    ensures ok { OnOk result (string_bytes out.new ≡ string_bytes out.old ++ held_text object.0 value.now) }
    ensures err { OnErr result (string_bytes out.new ≡ string_bytes out.old) }
{
    let len = out.len();
    let put = put_held(object, value, out);
    whole_or_cut(out, len, put)
}

/// Appends a list of objects, as `[0 2]`.
pub fn append_objects(objects: &[ObjectId], out: &mut String) -> Result<(), AllocError>
    ensures ok { OnOk result (string_bytes out.new ≡ string_bytes out.old ++ objects_text objects.now) }
    ensures err { OnErr result (string_bytes out.new ≡ string_bytes out.old) }
{
    let len = out.len();
    let put = put_objects(objects, out);
    whole_or_cut(out, len, put)
}

/// Where memory ran out, cuts `out` to the length that it had before something was put.
fn whole_or_cut(out: &mut String, len: usize, put: Result<(), AllocError>) -> Result<(), AllocError>
    requires { IsSplitPoint (string_bytes out.old) len }
    ensures same { result ≡ put }
    ensures ok { OnOk result (out.new ≡ out.old) }
    ensures err { OnErr result (string_bytes out.new ≡ take len (string_bytes out.old)) }
{
    if put.is_err() {
        out.truncate(len);
    }
    put
}

// What these put stays where memory runs out: behind the old text stands a part of what was to be put.

fn put_value(value: &[i64], out: &mut String) -> Result<(), AllocError>
    ensures ok { OnOk result (string_bytes out.new ≡ string_bytes out.old ++ value_text value.now) }
    ensures front { IsPrefix (string_bytes out.old) (string_bytes out.new) }
{
    out.push('(')?;
    put_numbers(value, out)?;
    out.push(')')
}

fn put_numbers(numbers: &[i64], out: &mut String) -> Result<(), AllocError>
    ensures ok { OnOk result (string_bytes out.new ≡ string_bytes out.old ++ joined 44 signed_decimal numbers.now) }
    ensures front { IsPrefix (string_bytes out.old) (string_bytes out.new) }
{
    let [first, rest @ ..] = numbers else {
        return Ok(());
    };
    put_number(*first, out)?;
    put_more_numbers(rest, out)
}

fn put_more_numbers(numbers: &[i64], out: &mut String) -> Result<(), AllocError>
    ensures ok { OnOk result (string_bytes out.new ≡ string_bytes out.old ++ flat_map (λ n. 44 ∷ signed_decimal n) numbers.now) }
    ensures front { IsPrefix (string_bytes out.old) (string_bytes out.new) }
{
    for number in numbers {
        out.push(',')?;
        put_number(*number, out)?;
    }
    Ok(())
}

fn put_number(number: i64, out: &mut String) -> Result<(), AllocError>
    ensures ok { OnOk result (string_bytes out.new ≡ string_bytes out.old ++ signed_decimal number) }
    ensures front { IsPrefix (string_bytes out.old) (string_bytes out.new) }
{
    let mut digits = Buffer::new();
    out.push_str(digits.format(number))
}

fn put_held(object: ObjectId, value: &[i64], out: &mut String) -> Result<(), AllocError>
    ensures ok { OnOk result (string_bytes out.new ≡ string_bytes out.old ++ held_text object.0 value.now) }
    ensures front { IsPrefix (string_bytes out.old) (string_bytes out.new) }
{
    put_object(object, out)?;
    out.push('=')?;
    put_value(value, out)
}

fn put_object(object: ObjectId, out: &mut String) -> Result<(), AllocError>
    ensures ok { OnOk result (string_bytes out.new ≡ string_bytes out.old ++ decimal object.0) }
    ensures front { IsPrefix (string_bytes out.old) (string_bytes out.new) }
{
    let mut digits = Buffer::new();
    out.push_str(digits.format(object.0))
}

fn put_objects(objects: &[ObjectId], out: &mut String) -> Result<(), AllocError>
    ensures ok { OnOk result (string_bytes out.new ≡ string_bytes out.old ++ objects_text objects.now) }
    ensures front { IsPrefix (string_bytes out.old) (string_bytes out.new) }
{
    out.push('[')?;
    put_object_list(objects, out)?;
    out.push(']')
}

fn put_object_list(objects: &[ObjectId], out: &mut String) -> Result<(), AllocError>
    ensures ok { OnOk result (string_bytes out.new ≡ string_bytes out.old ++ joined 32 (λ (o : ObjectId). decimal o.0) objects.now) }
    ensures front { IsPrefix (string_bytes out.old) (string_bytes out.new) }
{
    let [first, rest @ ..] = objects else {
        return Ok(());
    };
    put_object(*first, out)?;
    put_more_objects(rest, out)
}

fn put_more_objects(objects: &[ObjectId], out: &mut String) -> Result<(), AllocError>
    ensures ok { OnOk result (string_bytes out.new ≡ string_bytes out.old ++ flat_map (λ (o : ObjectId). 32 ∷ decimal o.0) objects.now) }
    ensures front { IsPrefix (string_bytes out.old) (string_bytes out.new) }
{
    for object in objects {
        out.push(' ')?;
        put_object(*object, out)?;
    }
    Ok(())
}
