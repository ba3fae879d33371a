//! Whole blocks, written out: each kind of block, with each of its ends, has at least one; and lookups by a pattern. Laws
//! alone: the functions do nothing.
#![tactic(auto)]

ghost use Rattle.command_blocks.specs.Blocks.{AreBlocks, IsMannered};
ghost use Rattle.command_blocks.specs.Calls.{concat};
ghost use Rattle.command_blocks.specs.Setting.{IsLawful};
ghost use Rattle.std.specs.Prelude.{◌≡◌, [], ◌∷◌, codes};
ghost use Rattle.queue_keys.specs.Bindings.{member};
ghost use Rattle.queue_keys.specs.Lookup.{queues_for};
ghost use Rattle.worked_blocks.specs.Lists.{all_blocks};
ghost use Rattle.worked_blocks.specs.Toy.{toy_setting};

/// A client of seed 7 may say a block of each kind, with each of its ends, one after the other.
pub fn each_block()
    ensures blocks { AreBlocks toy_setting 7 0 0 all_blocks }
    ensures mannered { IsMannered toy_setting 7 (concat all_blocks) }
    // The setting is one of those of which the place theorem speaks.
    ensures lawful { IsLawful toy_setting }
{}

/// A member with the pattern `a.*.#` takes the routing keys `a.b` and `a.b.c.d`, and not `a`; of two members that take
/// a key, both queues are found, in byte order.
pub fn pattern_lookups()
    ensures two_words { queues_for (codes "ex") (codes "a.b") (member (codes "rk") (codes "a.*.#") (codes "celery") ∷ [])
        ≡ codes "celery" ∷ [] }
    ensures four_words { queues_for (codes "ex") (codes "a.b.c.d") (member (codes "rk") (codes "a.*.#") (codes "celery") ∷ [])
        ≡ codes "celery" ∷ [] }
    ensures one_word { queues_for (codes "ex") (codes "a") (member (codes "rk") (codes "a.*.#") (codes "celery") ∷ []) ≡ [] }
    ensures two_queues { queues_for (codes "ex") (codes "a.b")
        (member (codes "rk") (codes "a.*.#") (codes "q2") ∷ member (codes "rk") (codes "#") (codes "q1") ∷ [])
        ≡ codes "q1" ∷ codes "q2" ∷ [] }
{}
