//! How far the returns of a pass are.
ghost use Rattle.std.specs.Prelude.{◌<◌, length};
ghost use Rattle.passes.specs.Counts.{returned_count};

use crate::counts::Counts;
use envelope::Tag;
use wire_values::List;

/// The tags that are due, and how the returns of those before the present one ended.
#[derive(Drop)]
pub(crate) struct Returns {
    pub(crate) tags: List<Tag>,
    pub(crate) counts: Counts,
    ghost within: { returned_count counts < length tags },
}
