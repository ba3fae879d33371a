//! Whole histories over Celery's envelopes, written out, that are sound: each reply is the one that the store gives there,
//! and each client keeps its manner. Laws alone: the functions do nothing.
//!
//! Two ends of blocks are in none of them, since no sound history from an empty store has them: a pop of bytes that are no
//! envelope, and a return that finds what is no entry of its tag.
#![tactic(auto)]

ghost use Rattle.command_blocks.specs.EnvelopeTexts.{plain_setting};
ghost use Rattle.place_model.specs.Starts.{IsSound};
ghost use Rattle.std.specs.Prelude.{[], codes};
ghost use Rattle.worked_histories.specs.Messages.{celery_message};
ghost use Rattle.worked_histories.specs.Rows.{contended, each_kind, stuck, worked};

/// A history with a block of each kind is sound.
pub fn each_kind_sound()
    ensures { IsSound plain_setting (worked (each_kind (celery_message 7 1 [] (codes "q")) (celery_message 7 2 (codes "ex") (codes "rk")))) }
{}

/// A history with a return that is contended in each of its eight tries is sound.
pub fn contended_sound()
    ensures { IsSound plain_setting (worked (contended (celery_message 7 1 [] (codes "q")) (λ n. celery_message 8 n [] (codes "q")))) }
{}

/// A history is sound in which a pass is stuck and finds the mutex another's when it releases it; a second pass finds it
/// held, and a third one returns what was left.
pub fn stuck_sound()
    ensures { IsSound plain_setting (worked (stuck (celery_message 7 1 [] (codes "q")) (λ n. celery_message 8 n [] (codes "q")))) }
{}
