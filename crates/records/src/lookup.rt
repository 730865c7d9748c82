// Finding a record by its id.
ghost use Rattle.std.specs.Prelude.{◌≡◌, ℕ, map};
ghost use Rattle.records.specs.Records.{Finds};

// A record that has an id.
pub trait Record {
    ghost key: { Self → ℕ };

    // The record's id.
    fn id(&self) -> u32
        ensures { result ≡ key self.now };
}

// The index of the first record that has the id; none where no record has it.
pub fn find<R: Record>(records: &[R], id: u32) -> Option<usize>
    ensures { Finds (map R.Record.key records.now) id result }
{
    records.iter().position(|record| record.id() == id)
}
