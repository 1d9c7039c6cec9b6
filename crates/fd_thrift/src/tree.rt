use crate::Bytes;

/// A value of the Thrift compact protocol. An enumeration is a number of 32 bits, and a text its
/// bytes. The other types of the protocol (booleans, bytes, numbers of 16 bits, floats, sets, maps
/// and UUIDs) are not used.
#[cycle(tree)]
#[derive(Debug, Drop)]
pub enum Tree {
    Whole32(i32),
    Whole64(i64),
    Binary(Bytes),
    /// Values of one type. Where there is none, it is a list of structs.
    List(Trees),
    Struct(TreeFields),
}

/// A field of a struct.
#[cycle(tree)]
#[derive(Debug, Drop)]
pub struct TreeField {
    /// From 1 on, and at most 15 above the field before.
    pub id: i16,
    pub tree: Tree,
}

/// The items of a list, in order.
pub type Trees = Vec<Tree>;

/// The fields of a struct, in the order of their ids.
pub type TreeFields = Vec<TreeField>;
