//! Whether a shape is one that a world may have.
ghost use Rattle.std.specs.Prelude.{◌≡◌};
ghost use Rattle.sv_pilot.specs.Shapes.{is_shape};

use sv_world::{MOST_ATTRS, MOST_OBJECTS, Shape};

pub(crate) fn is_good_shape(shape: Shape) -> bool
    ensures { result ≡ is_shape shape }
{
    1 <= shape.objects
        && shape.objects <= MOST_OBJECTS
        && 1 <= shape.attrs
        && shape.attrs <= MOST_ATTRS
}
