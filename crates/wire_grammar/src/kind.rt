//! What can be wrong on the wire, and what its numbers and texts are for.

/// The most bytes of a bulk string, 1,048,576.
pub const LENGTH_LIMIT: u64 = 1_048_576;

/// The most items of an array, 4,096.
pub const COUNT_LIMIT: u64 = 4_096;

/// The most bytes of a simple string or an error, 65,536.
pub const TEXT_LIMIT: usize = 65_536;

/// The most arrays that are open inside each other, 4.
pub const DEPTH_LIMIT: usize = 4;

/// The most bytes that one value is written as, 8,388,608.
pub const VALUE_LIMIT: u64 = 8_388_608;

/// What is wrong with the byte at which no value can go on (RESP2, in this project's limits).
#[derive(Clone, Copy, Debug, PartialEq, Eq, Drop)]
pub enum WireKind {
    /// No value begins with this byte.
    BadKind,
    /// It doesn't go on with an integer in its one spelling, or passes 64 bits.
    BadInteger,
    /// A carriage return or a line feed must stand here, or a line feed stands in a text.
    NoCrLf,
    /// A text, a length, a count or a whole value passes its limit.
    TooLong,
    /// An array inside four others.
    TooDeep,
}

/// What a number on the wire is for.
#[derive(Clone, Copy, Debug)]
pub enum NumberKind {
    /// An integer of 64 bits.
    Whole,
    /// The length of a bulk string, or -1 for none.
    Length,
    /// The count of an array's items, or -1 for none.
    Count,
}

/// What a line of text on the wire is.
#[derive(Clone, Copy, Debug)]
pub enum TextKind {
    /// A simple string, as `+OK`.
    Status,
    /// An error, as `-ERR syntax`.
    Error,
}
