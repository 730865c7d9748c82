// The bottom gates: a stream's window is stored as it stands, or as its difference from the initial window.
ghost use Rattle.std.specs.Prelude.{◌≡◌, IfOk};
ghost use Rattle.accounts.specs.Books.{meaning_of};
ghost use Rattle.credit.specs.Calls.{after};
ghost use Rattle.credit.specs.Credit.{fresh, most_room};
ghost use Rattle.accounts.specs.declared.storages.Storage.{Storage};
ghost use Rattle.accounts.proofs.Soundness.{books-sound};
ghost use Rattle.std.proofs.Common.{rules};

use accounts::{Books, Storage};
use credit::Gate;
use std::alloc::{AllocError, Global};
use std::marker::PhantomData;

// How a bottom gate stores the windows of its streams.
pub trait Layout {
    ghost stored: { Storage };

    // What the gate's books are told.
    fn storage() -> Storage
        ensures { result ≡ stored };
}

// Each window is stored as it stands.
pub enum Direct {}

impl Layout for Direct {
    ghost stored = { Storage.Direct };

    fn storage() -> Storage {
        Storage::Direct
    }
}

// Each window is stored as its difference from the initial window, so that a new one touches no stream.
pub enum Offset {}

impl Layout for Offset {
    ghost stored = { Storage.Offset };

    fn storage() -> Storage {
        Storage::Offset
    }
}

// A gate of limit 64 whose room is the largest that the law allows.
#[derive(Drop)]
pub struct Windows<L: Layout> {
    books: Books,
    layout: PhantomData<L>,
    pub ghost stored: { books.storage ≡ L.Layout.stored },
}

// Stores each stream's window as it stands.
pub type DirectWindows = Windows<Direct>;

// Stores each stream's window as its difference from the initial window.
pub type OffsetWindows = Windows<Offset>;

impl<L: Layout> Windows<L> {
    // A fresh gate.
    pub fn new(heap: Global) -> Result<Windows<L>, AllocError>
        ensures { IfOk result (λ g. meaning_of g.books ≡ fresh 64) }
    {
        let books = Books::new(heap, L::storage())?;
        Ok(Windows {
            books,
            layout: PhantomData,
        })
    }
}

// Each call is handed on to the books, for which the language has no shorter form.
impl<L: Layout> Gate for Windows<L> {
    ghost meaning = { λ g. meaning_of g.books };

    ghost free = { λ g. most_room (meaning_of g.books) };

    ghost moved = { λ s call t. meaning_of t.books ≡ after (meaning_of s.books) call };

    ghost sound = { λ w. books-sound w.books };

    ghost roomy = { Prim.search rules };

    ghost means = { Prim.search rules };

    fn begin(&mut self, id: u32) -> bool {
        self.books.begin(id)
    }

    fn finish(&mut self, id: u32) -> bool {
        self.books.finish(id)
    }

    fn raise(&mut self, id: u32, v: u32) -> bool {
        self.books.raise(id, v)
    }

    fn initial(&mut self, v: u32) -> bool {
        self.books.initial(v)
    }

    fn hold(&mut self, id: u32, n: u32) -> bool {
        self.books.hold(id, n)
    }

    fn spend(&mut self, id: u32, n: u32) -> bool {
        self.books.spend(id, n)
    }

    fn room(&self, id: u32) -> u32 {
        self.books.room(id)
    }

    fn window(&self, id: u32) -> Option<i32> {
        self.books.window(id)
    }

    fn held(&self, id: u32) -> Option<u32> {
        self.books.held(id)
    }

    fn initial_window(&self) -> u32 {
        self.books.initial_window()
    }

    fn connection_window(&self) -> u32 {
        self.books.connection_window()
    }

    fn connection_held(&self) -> u32 {
        self.books.connection_held()
    }

    fn begun(&self) -> u32 {
        self.books.begun()
    }

    fn limit(&self) -> u32 {
        self.books.limit()
    }
}
