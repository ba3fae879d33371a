//! Links and nets in memory that have stores behind them: what is sent over such a link is asked of its own store, and
//! what it gives are the store's replies.
//!
//! Each file is a layer: the clock of such a store, how far it still asks, the asking of all values that are whole, the
//! link, and the net.
#![tactic(auto)]

mod asking_all;
mod link_stage;
mod local_link;
mod local_net;
mod still_clock;

pub use link_stage::LinkStage;
pub use local_link::LocalLink;
pub use local_net::LocalNet;
pub use still_clock::StillClock;
