// A table of at most 64 records, in the order in which they came.
ghost use Rattle.std.specs.Prelude.{◌≡◌, min, false, [], ◌∷◌, ◌++◌, map, length, IfOk, if◌then◌else◌, None, vec_capacity, nat_lt};
ghost use Rattle.std.specs.Borrow.{sem, follows_if};
ghost use Rattle.std.specs.Option.{ghost_name_of as name_of};
ghost use Rattle.records.specs.Records.{Finds, seek};
ghost use Rattle.records.specs.Tables.{Found, FoundMut, without, Taken, Roomy};
ghost use Rattle.records.specs.Lending.{with_row};
ghost use Rattle.records.specs.contracts.tables.Table.{the_row};

use crate::lookup::{Record, find};
use std::alloc::{AllocError, Global};

// The most records that a table holds.
const LIMIT: usize = 64;

// A plain table: nothing is promised of it but what its calls say, and they keep the room that a new one has.
#[derive(Drop)]
pub struct Table<R> {
    pub rows: Vec<R>,
}

impl<R: Record + Drop> Table<R> {
    // An empty table, with the memory for 64 records; only here can memory be wanting.
    pub fn new(heap: Global) -> Result<Table<R>, AllocError>
        ensures { IfOk result (λ t. (t.rows.items ≡ []) × Roomy t) }
    {
        let rows = Vec::with_capacity(heap, LIMIT)?;
        Ok(Table { rows })
    }

    // How many records there are.
    pub fn len(&self) -> usize
        ensures { result ≡ length self.now.rows.items }
    {
        self.rows.len()
    }

    // The index of the record with the id.
    fn place(&self, id: u32) -> Option<usize>
        ensures { Finds (map R.Record.key self.now.rows.items) id result }
    {
        find(self.rows.as_slice(), id)
    }

    // The record with the id.
    pub fn get(&self, id: u32) -> Option<&R>
        ensures { Found R.Record.key self.now.rows.items id result }
    {
        let i = self.place(id)?;
        Some(&self.rows[i])
    }

    // Lends the record with the id, to be changed; the table follows it.
    pub fn get_mut(&mut self, id: u32) -> Option<&mut R>
        ensures* follows { sem 𝓛 (follows_if (the_row R.row) R.row self.entry.ghost_name (name_of result) (with_row self.old (seek (map R.Record.key self.old.rows.items) id)) self.old) }
        ensures finds { FoundMut R.Record.key self.old.rows.items id result }
    {
        let i = self.place(id)?;
        self.rows.get_mut(i)
    }

    // Adds a record behind the others; false where the table is full, which then is as it was.
    pub fn add(&mut self, row: R) -> bool
        ensures answers { result ≡ nat_lt (length self.old.rows.items) (min 64 (vec_capacity self.old.rows)) }
        ensures limit { Roomy self.old → result ≡ nat_lt (length self.old.rows.items) 64 }
        ensures rows { self.new.rows.items ≡ (if result then self.old.rows.items ++ row ∷ [] else self.old.rows.items) }
        ensures memory { vec_capacity self.new.rows ≡ vec_capacity self.old.rows }
        ensures stays { result ≡ false → self.new ≡ self.old }
        ensures room { Roomy self.old → Roomy self.new }
    {
        if self.len() >= LIMIT.min(self.rows.capacity()) {
            return false;
        }
        self.rows.push_reserved(row);
        true
    }

    // Takes out the record with the id; the order of the rest stays, and where there is none the table is as it was.
    pub fn remove(&mut self, id: u32) -> Option<R>
        ensures answers { Taken R.Record.key self.old.rows.items id result }
        ensures rows { self.new.rows.items ≡ without R.Record.key id self.old.rows.items }
        ensures memory { vec_capacity self.new.rows ≡ vec_capacity self.old.rows }
        ensures stays { result ≡ None → self.new ≡ self.old }
        ensures room { Roomy self.old → Roomy self.new }
    {
        let i = self.place(id)?;
        Some(self.rows.remove(i))
    }
}
