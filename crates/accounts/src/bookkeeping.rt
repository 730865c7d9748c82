// The books of a gate: the initial window, the connection's window, and an account for each stream that is begun.
ghost use Rattle.std.specs.Prelude.{◌≡◌, ◌≤◌};
ghost use Rattle.records.specs.Tables.{Roomy};
ghost use Rattle.accounts.specs.Accounts.{held_in, Fairs};
ghost use Rattle.accounts.specs.Storages.{base_of};

use crate::accounts_of_streams::Account;
use crate::storages::Storage;
use records::Table;

pub mod calls;
pub mod questions;

#[derive(Drop)]
pub struct Books {
    storage: Storage,
    initial: u32,
    connection: u32,
    held: u32,
    table: Table<Account>,
    ghost within: { (initial ≤ 2147483647) × (connection ≤ 2147483647) × (held ≤ connection) },
    ghost roomy: { Roomy table },
    ghost sums: { held ≡ held_in table.rows.items },
    ghost fair: { ∥ Fairs (base_of storage initial) initial table.rows.items ∥₁ },
}

impl Books {
    // What every account's window is above its balance.
    fn base(&self) -> u32
        ensures value { result ≡ base_of self.now.storage self.now.initial }
        ensures within { result ≤ self.now.initial }
    {
        self.storage.base(self.initial)
    }
}
