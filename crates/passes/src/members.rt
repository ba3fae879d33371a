//! The tags that are due.
ghost use Rattle.std.specs.Prelude.{◌≡◌, ◌∷◌, ◌+◌, [], drop, IfOk, MatchOption, OnOk};
ghost use Rattle.delivery_tags.specs.Tags.{tag_text};
ghost use Rattle.command_blocks.specs.EnvelopeTexts.{plain_setting};
ghost use Rattle.command_blocks.specs.PassBlocks.{tags_among};
ghost use Rattle.passes.specs.Counts.{AreAdded, tag_texts};

use envelope::Tag;
use std::alloc::{AllocError, Global};
use wire_values::{Bytes, List};

/// Those of the members of the index that are texts of tags, read.
///
/// # Errors
/// Want of memory.
pub(crate) fn tags_among(alloc: Global, members: &[Bytes]) -> Result<List<Tag>, AllocError>
    ensures { IfOk result (λ tags. tag_texts tags ≡ tags_among plain_setting members.now) }
{
    let mut tags = List::new();
    for member in members {
        add_read(alloc, &mut tags, member.as_slice())?;
    }
    Ok(tags)
}

/// Adds a member that is the text of a tag.
fn add_read(alloc: Global, tags: &mut List<Tag>, member: &[u8]) -> Result<(), AllocError>
    ensures { OnOk result (AreAdded tags.old member.now tags.new) }
{
    match Tag::read(member) {
        Some(tag) => tags.push(alloc, tag),
        None => Ok(()),
    }
}

/// The tag at a place.
pub(crate) fn tag_at(tags: &[Tag], place: u64) -> Option<Tag>
    ensures { MatchOption result (drop place (tag_texts tags.now) ≡ [])
        (λ tag. (drop place (tag_texts tags.now) ≡ tag_text tag.0 ∷ drop (place + 1) (tag_texts tags.now))) }
{
    let place = place as usize;
    if place < tags.len() {
        Some(tags[place])
    } else {
        None
    }
}
