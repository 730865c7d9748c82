// Worked priority values.
ghost use Rattle.std.specs.Prelude.{◌≡◌};
ghost use Rattle.wire.specs.Worked.{answers, Derived};

use crate::{Priority, read_priority};

// Reads the worked values, which have one answer each that the grammar derives.
pub fn worked_priorities() -> [Option<Priority>; 4]
    ensures values { result ≡ answers }
    ensures derived { Derived }
{
    [
        read_priority(b"u=1, u=9"),
        read_priority(b"i=?0, u=-0"),
        read_priority(b"u=5 , i"),
        read_priority(b"u=2,"),
    ]
}
