//! The lines of clients, by their connections.
//!
//! Each call appends to a vector. Where memory ends amid a text, a part of it may have been appended.
ghost use Rattle.std.specs.FinMap.{entries};
ghost use Rattle.std.specs.List.{flat_map};
ghost use Rattle.std.specs.Prelude.{◌≡◌, ◌++◌, ◌∷◌, [], IfOk, OnOk};
ghost use Rattle.history_records.specs.Lines.{client_line};
ghost use Rattle.history_records.specs.Records.{seed_map};

use std::alloc::{AllocError, Global};
use std::collections::BTreeMap;

/// Appends the lines of a table of connections with their seeds, by connection.
pub(crate) fn client_rows(
    alloc: Global,
    out: &mut Vec<u8>,
    clients: &[(u32, u64)],
) -> Result<(), AllocError>
    ensures { OnOk result (out.new.items
        ≡ out.old.items ++ flat_map (λ c. client_line c ++ 10 ∷ []) (entries (seed_map clients.now))) }
{
    let seeds = seeds_by_connection(alloc, clients)?;
    seed_rows(alloc, out, &seeds)
}

/// The seeds of a table by their connections.
fn seeds_by_connection(
    alloc: Global,
    clients: &[(u32, u64)],
) -> Result<BTreeMap<u32, u64>, AllocError>
    ensures { IfOk result (λ seeds. seeds.entries ≡ entries (seed_map clients.now)) }
{
    let mut seeds = BTreeMap::new(alloc);
    let mut left = clients.len();
    'seeds: while left > 0 {
        left -= 1;
        let (connection, seed) = clients[left];
        let _ = seeds.insert(connection, seed)?;
    }
    Ok(seeds)
}

/// Appends the lines of seeds by their connections.
fn seed_rows(alloc: Global, out: &mut Vec<u8>, seeds: &BTreeMap<u32, u64>) -> Result<(), AllocError>
    ensures { OnOk result (out.new.items
        ≡ out.old.items ++ flat_map (λ c. client_line c ++ 10 ∷ []) seeds.now.entries) }
{
    for (connection, seed) in seeds.iter() {
        client_row(alloc, out, *connection, *seed)?;
    }
    Ok(())
}

/// Appends the line of a client.
fn client_row(
    alloc: Global,
    out: &mut Vec<u8>,
    connection: u32,
    seed: u64,
) -> Result<(), AllocError>
    ensures { OnOk result (out.new.items ≡ out.old.items ++ (client_line (connection, seed) ++ 10 ∷ [])) }
{
    let text = format!(in alloc; "client {connection} seed {seed}\n")?;
    out.extend_from_slice(text.as_bytes())?;
    Ok(())
}
