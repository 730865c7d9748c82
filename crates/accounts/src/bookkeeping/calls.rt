// What moves the books.
ghost use Rattle.credit.specs.Calls.{begin, finish, raise, initial, hold, spend};
ghost use Rattle.accounts.specs.Books.{Kept};

use crate::accounts_of_streams::{Account, MAX};
use crate::all_accounts::Renewal;
use crate::bookkeeping::Books;

impl Books {
    // Starts a stream with the initial window and nothing held.
    pub fn begin(&mut self, id: u32) -> bool
        ensures { Kept (begin id) self.old result self.new }
    {
        if id == 0 || self.table.get(id).is_some() {
            return false;
        }
        let balance = (self.initial - self.base()) as i32;
        self.table.add(Account {
            id,
            balance,
            held: None,
        })
    }

    // Lets a stream go, and what it holds.
    pub fn finish(&mut self, id: u32) -> bool
        ensures { Kept (finish id) self.old result self.new }
    {
        let Some(account) = self.table.remove(id) else {
            return false;
        };
        self.held -= account.amount();
        true
    }

    // Adds to a stream's window, at 0 to the connection's.
    pub fn raise(&mut self, id: u32, v: u32) -> bool
        ensures { Kept (raise id v) self.old result self.new }
    {
        if id == 0 {
            if v > MAX - self.connection {
                return false;
            }
            self.connection += v;
            return true;
        }
        let base = self.base();
        let Some(account) = self.table.get_mut(id) else {
            return false;
        };
        account.raise(base, v)
    }

    // Sets the initial window, and moves every stream's window by the difference.
    pub fn initial(&mut self, v: u32) -> bool
        ensures { Kept (initial v) self.old result self.new }
    {
        if v > MAX {
            return false;
        }
        let renewal = Renewal {
            before: self.initial - self.base(),
            after: v,
        };
        if !renewal.all_fit(self.table.rows.as_slice()) {
            return false;
        }
        renewal.renew_all(self.storage, self.table.rows.as_mut_slice());
        self.initial = v;
        true
    }

    // Holds octets of a stream's room.
    pub fn hold(&mut self, id: u32, n: u32) -> bool
        ensures { Kept (hold id n) self.old result self.new }
    {
        if n > self.connection - self.held {
            return false;
        }
        let base = self.base();
        let Some(account) = self.table.get_mut(id) else {
            return false;
        };
        if !account.hold(base, n) {
            return false;
        }
        self.held += n;
        true
    }

    // Takes octets off both windows, and lets go what the stream holds.
    pub fn spend(&mut self, id: u32, n: u32) -> bool
        ensures { Kept (spend id n) self.old result self.new }
    {
        let base = self.base();
        let Some(account) = self.table.get_mut(id) else {
            return false;
        };
        let amount = account.amount();
        if !account.spend(base, n) {
            return false;
        }
        self.connection -= n;
        self.held -= amount;
        true
    }
}
