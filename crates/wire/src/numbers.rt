// Numbers in octets, the highest octet first: one text for every width.
ghost use Rattle.std.specs.Prelude.{◌≡◌, ◌^◌, ◌<◌, ◌≤◌, length};
ghost use Rattle.wire.specs.Numbers.{number_of, octets_of, without_top_bit};

// The number that the octets write.
pub(crate) fn number(octets: &[u8]) -> u32
    requires { length octets.now ≤ 4 }
    ensures value { result ≡ number_of octets.now }
    ensures bound { result < 256 ^ length octets.now }
{
    let mut n: u32 = 0;
    for octet in octets {
        n = n * 256 + u32::from(*octet);
    }
    n
}

// Writes the number over all of the octets, less what is above them.
pub(crate) fn put_number(octets: &mut [u8], n: u32)
    ensures { octets.new ≡ octets_of (length octets.old) n }
{
    // The width is not fixed, so the octets are written one after another, from the last to the first.
    let mut above = n;
    for i in (0..octets.len()).rev() {
        octets[i] = (above % 256) as u8;
        above /= 256;
    }
}

// A stream id or an increment: the top bit of its four octets is reserved, and is ignored.
pub(crate) fn without_top_bit(n: u32) -> u32
    ensures { result ≡ without_top_bit n }
{
    n & 0x7fff_ffff
}
