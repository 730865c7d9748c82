// What a new initial window makes of every account.
ghost use Rattle.std.specs.Prelude.{◌≡◌, map, Decides};
ghost use Rattle.std.specs.List.{AllByRecursion};
ghost use Rattle.accounts.specs.Accounts.{Fits, InRange, shifted_by};
ghost use Rattle.accounts.specs.Storages.{Renewable, renewed_by};

use crate::accounts_of_streams::{Account, MAX};
use crate::storages::Storage;

// A renewal: balances move by what the initial window after it differs from the one before.
#[derive(Clone, Copy)]
pub(crate) struct Renewal {
    pub before: u32,
    pub after: u32,
}

impl Renewal {
    // Whether a balance does not pass MAX when it moves.
    fn fits(&self, account: &Account) -> bool
        ensures { Decides result (Fits self.now.before self.now.after account.now) }
    {
        i64::from(account.balance) + i64::from(self.after)
            <= i64::from(MAX) + i64::from(self.before)
    }

    // The account with its balance moved.
    fn shifted(&self, account: &Account) -> Account
        requires { InRange self.now.before self.now.after account.now }
        ensures { result ≡ shifted_by self.now.before self.now.after account.now }
    {
        let balance = i64::from(account.balance) + i64::from(self.after) - i64::from(self.before);
        Account {
            balance: balance as i32,
            ..*account
        }
    }

    // Whether no balance passes MAX when it moves.
    pub(crate) fn all_fit(&self, accounts: &[Account]) -> bool
        ensures { Decides result (AllByRecursion (Fits self.now.before self.now.after) accounts.now) }
    {
        accounts.iter().all(|account| self.fits(account))
    }

    // Moves every balance.
    fn shift_all(&self, accounts: &mut [Account])
        requires { AllByRecursion (InRange self.now.before self.now.after) accounts.old }
        ensures { accounts.new ≡ map (shifted_by self.now.before self.now.after) accounts.old }
    {
        for account in accounts.iter_mut() {
            *account = self.shifted(account);
        }
    }

    // Moves every balance where windows are stored as they stand; else no account moves.
    pub(crate) fn renew_all(&self, storage: Storage, accounts: &mut [Account])
        requires { Renewable storage self.now.before self.now.after accounts.old }
        ensures { accounts.new ≡ renewed_by storage self.now.before self.now.after accounts.old }
    {
        // A closure or a type parameter would carry both steps into every proof on the books.
        match storage {
            Storage::Direct => self.shift_all(accounts),
            Storage::Offset => {}
        }
    }
}
