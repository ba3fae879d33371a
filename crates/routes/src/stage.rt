//! A command of a publication.
ghost use Rattle.std.proofs.Props.{props};
ghost use Rattle.std.specs.Prelude.{◌≡◌, true};
ghost use Rattle.routes.specs.Named.{is_named};
ghost use Rattle.serde_json.specs.View.{view as data_of};

use crate::route::Publishing;
use envelope::Envelope;

/// A command of a publication: the envelope, and which command is next.
#[derive(Drop)]
pub struct PublishStage {
    pub(crate) envelope: Envelope,
    pub(crate) next: Publishing,
    ghost named: { is_named (data_of envelope) next ≡ true } by { Prim.hlevel props },
}
