//! The store after a history.
ghost use Rattle.std.specs.Prelude.{◌≡◌, IfOk, OnOk, is_some};
ghost use Rattle.std.specs.FinMap.{get};
ghost use Rattle.store_model.specs.Store.{empty_state};
ghost use Rattle.place_model.specs.Histories.{after, conn_of};
ghost use Rattle.place_model.specs.Shown.{history_of};
ghost use Rattle.place_index.specs.Stored.{store_after, store_next};
ghost use Rattle.place_model.specs.Takable.{AreTakable, IsTakable};

use mini_store::Store;
use place_model::{Entry, Heard, History};
use place_walk::{ClientSeat, Numbered, seated};
use std::alloc::{AllocError, Global};

/// The store after a history: each call of a client of the table is taken, and each stop of one leaves nothing of its
/// connection.
pub fn store_after(alloc: Global, history: &History) -> Result<Store, AllocError>
    ensures { IfOk result (λ store. store.state ≡ (after (history_of history.now)).store) }
{
    let known = seated(alloc, history.clients())?;
    taken(alloc, &known, history.entries())
}

/// The store that takes the entries of known clients.
fn taken(
    alloc: Global,
    known: &Numbered<ClientSeat>,
    entries: &[Entry<Heard>],
) -> Result<Store, AllocError>
    requires { AreTakable entries.now }
    ensures { IfOk result (λ store. store.state ≡ store_after known.now empty_state entries.now) }
{
    let mut store = Store::new(alloc);
    for entry in entries {
        take(alloc, &mut store, known, entry)?;
    }
    Ok(store)
}

/// Takes an entry, where its client is known.
fn take(
    alloc: Global,
    store: &mut Store,
    known: &Numbered<ClientSeat>,
    entry: &Entry<Heard>,
) -> Result<(), AllocError>
    requires { IsTakable entry.now }
    ensures { OnOk result (store.new.state ≡ store_next (is_some (get known.now (conn_of entry.now))) store.old.state entry.now) }
{
    match entry {
        Entry::Call {
            conn,
            at,
            words,
            reply: _,
        } => {
            if known.has(*conn) {
                let _ = store.apply(alloc, *at, *conn, words)?;
            }
        }
        Entry::Heard { conn: _, heard: _ } => {}
        Entry::Stop { conn } => {
            if known.has(*conn) {
                store.gone(*conn);
            }
        }
    }
    Ok(())
}
