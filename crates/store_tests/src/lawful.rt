//! Tests of what a history requires of a row.
ghost use Rattle.std.specs.Prelude.{◌≡◌};
ghost use Rattle.place_model.specs.Histories.{connections, seeds};
ghost use Rattle.queue_keys.specs.QueueKeys.{Among, IsAway};
ghost use Rattle.place_model.specs.Shown.{IsRunning, has_stopped, history_of};
ghost use Rattle.std.specs.Bool.{OnTrue};

use place_model::{Entry, Heard, History};

/// Whether a connection and a seed can be added to a table.
pub fn is_new(clients: &[(u32, u64)], conn: u32, seed: u64) -> bool
    ensures conn { OnTrue result (IsAway conn (connections clients.now)) }
    ensures seed { OnTrue result (IsAway seed (seeds clients.now)) }
{
    match clients {
        [] => true,
        [client, rest @ ..] => client.0 != conn && client.1 != seed && is_new(rest, conn, seed),
    }
}

/// Whether a client of a history isn't gone.
pub fn is_running(history: &History, conn: u32) -> bool
    ensures { OnTrue result (IsRunning (history_of history.now) conn) }
{
    is_client(history.clients(), conn) && !is_gone(history.entries(), conn)
}

fn is_client(clients: &[(u32, u64)], conn: u32) -> bool
    ensures { OnTrue result (Among conn (connections clients.now)) }
{
    match clients {
        [] => false,
        [client, rest @ ..] => client.0 == conn || is_client(rest, conn),
    }
}

fn is_gone(entries: &[Entry<Heard>], conn: u32) -> bool
    ensures { result ≡ has_stopped conn entries.now }
{
    match entries {
        [] => false,
        [Entry::Stop { conn: gone }, rest @ ..] => *gone == conn || is_gone(rest, conn),
        [_, rest @ ..] => is_gone(rest, conn),
    }
}
