// What the books tell.
ghost use Rattle.std.specs.Prelude.{◌≡◌, IfOk};
ghost use Rattle.credit.specs.Credit.{fresh, most_room, window_of, held_of};
ghost use Rattle.accounts.specs.Books.{meaning_of};

use crate::bookkeeping::Books;
use crate::storages::Storage;
use records::Table;
use std::alloc::{AllocError, Global};

impl Books {
    // Fresh books: both windows are 65,535, and no stream is begun.
    pub fn new(heap: Global, storage: Storage) -> Result<Books, AllocError>
        ensures { IfOk result (λ b. (meaning_of b ≡ fresh 64) × (b.storage ≡ storage)) }
    {
        let table = Table::new(heap)?;
        Ok(Books {
            storage,
            initial: 65_535,
            connection: 65_535,
            held: 0,
            table,
        })
    }

    // The largest room that a stream can have.
    pub fn room(&self, id: u32) -> u32
        ensures { result ≡ most_room (meaning_of self.now) id }
    {
        let Some(account) = self.table.get(id) else {
            return 0;
        };
        account.spare(self.base()).min(self.connection - self.held)
    }

    // A stream's window; none where it is not begun.
    pub fn window(&self, id: u32) -> Option<i32>
        ensures { result ≡ window_of ((meaning_of self.now).stream id) }
    {
        let account = self.table.get(id)?;
        Some(account.window(self.base()))
    }

    // What a stream holds; none where it holds nothing or is not begun.
    pub fn held(&self, id: u32) -> Option<u32>
        ensures { result ≡ held_of ((meaning_of self.now).stream id) }
    {
        self.table.get(id)?.held
    }

    pub fn initial_window(&self) -> u32
        ensures { result ≡ (meaning_of self.now).initial }
    {
        self.initial
    }

    pub fn connection_window(&self) -> u32
        ensures { result ≡ (meaning_of self.now).connection }
    {
        self.connection
    }

    // What the streams hold together.
    pub fn connection_held(&self) -> u32
        ensures { result ≡ (meaning_of self.now).held }
    {
        self.held
    }

    // How many streams are begun.
    pub fn begun(&self) -> u32
        ensures { result ≡ (meaning_of self.now).begun }
    {
        self.table.len() as u32
    }

    // How many streams can be begun at a time.
    pub fn limit(&self) -> u32
        ensures { result ≡ (meaning_of self.now).limit }
    {
        64
    }
}
