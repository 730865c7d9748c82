// Worked cases of credit.
ghost use Rattle.std.specs.Prelude.{◌≡◌};
ghost use Rattle.credit.specs.Worked.{Worked, worked_numbers};

// A window after 60,000 octets were spent and the initial window fell to 16,384, the same after an increment of 43,617,
// and what is left where 10,000 octets are held and the initial window fell to 4,000.
pub fn worked_credit() -> [i32; 3]
    ensures numbers { result ≡ worked_numbers }
    ensures worked { Worked }
{
    [
        65_535 - 60_000 + (16_384 - 65_535),
        65_535 - 60_000 + (16_384 - 65_535) + 43_617,
        4_000 - 10_000,
    ]
}
