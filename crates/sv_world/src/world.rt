//! Worlds, and the numbers of their objects and of clients.

use crate::Short;
use sv_lists::List;

/// An object's number, from 0 up.
#[derive(Clone, Copy, Debug, Default, Drop, PartialEq, Eq, PartialOrd, Ord)]
pub struct ObjectId(pub u16);

/// A client's number, from 0 up.
#[derive(Clone, Copy, Debug, Drop, PartialEq, Eq, PartialOrd, Ord)]
pub struct ClientId(pub u16);

/// The numbers of one object, one for each attribute.
pub type Value = Short<i64, 4>;

/// The objects that an action reads. Few read more than eight.
pub type Reads = Short<ObjectId, 8>;

/// How many objects a world has, 1 to 65,535, and how many attributes each of them, 1 to 4.
#[derive(Clone, Copy, Debug, Drop, PartialEq, Eq)]
pub struct Shape {
    pub objects: u16,
    pub attrs: u8,
}

/// One value for each object, in order, of `shape.attrs` numbers each.
#[derive(Debug, Drop)]
pub struct World {
    pub shape: Shape,
    pub values: List<Value>,
}
