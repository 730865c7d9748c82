// How a gate stores the windows of its streams.
ghost use Rattle.std.specs.Prelude.{◌≡◌};
ghost use Rattle.accounts.specs.Storages.{base_of};

// A window is stored as it stands, or as its difference from the initial window.
#[derive(Clone, Copy)]
pub enum Storage {
    Direct,
    Offset,
}

impl Storage {
    // What an account's window is above its balance.
    pub(crate) fn base(self, initial: u32) -> u32
        ensures { result ≡ base_of self initial }
    {
        match self {
            Storage::Direct => 0,
            Storage::Offset => initial,
        }
    }
}
