//! The limits of what a store holds and gives.

/// The first moment, in seconds, that is too late for a store, 2^40.
pub const MOMENT_LIMIT: u64 = 1_099_511_627_776;

/// The most commands of a queue, 4,096.
pub const QUEUE_LIMIT: usize = 4_096;

/// The most members of a set, 1,024.
pub const SET_LIMIT: usize = 1_024;

/// The most bytes of a member of a set or a sorted set, and of a field of a hash, 1,024.
pub const MEMBER_LIMIT: usize = 1_024;

/// The most messages that a connection hasn't been told yet, 1,024.
pub const PENDING_LIMIT: usize = 1_024;

/// The most members that a range gives, 4,096.
pub const RANGE_LIMIT: u64 = 4_096;
