// The members of a priority value, read from the front to the end.
ghost use Rattle.std.specs.Prelude.{◌≡◌, ℕ, ◌+◌, ◌^◌, ◌<◌, ◌≤◌, min, Bool, length, take, is_some, if◌then◌else◌};
ghost use Rattle.std.specs.Option.{option_map};
ghost use Rattle.std.specs.List.{prefix_len};
ghost use Rattle.wire.specs.Grammar.{is_space, is_blank, is_digit, starts_key, goes_on_key, decimal_of};
ghost use Rattle.wire.specs.Values.{past, leaving, key_at, boolean_at, integer_at, item_at, absent, noted, member_at, members_of, latest_in};

use crate::priorities::{Item, Latest};

// The most digits that an integer has.
const DIGITS: usize = 15;

// The octets that the parts of a value are made of: spaces, spaces and tabs, digits, and those of a key.
fn is_space(b: u8) -> bool
    ensures { result ≡ is_space b }
{
    b == b' '
}

fn is_blank(b: u8) -> bool
    ensures { result ≡ is_blank b }
{
    matches!(b, b' ' | b'\t')
}

fn is_digit(b: u8) -> bool
    ensures { result ≡ is_digit b }
{
    b.is_ascii_digit()
}

fn starts_key(b: u8) -> bool
    ensures { result ≡ starts_key b }
{
    matches!(b, b'a'..=b'z' | b'*')
}

// The ranges stand apart from the single octets, since each letter takes more instructions where one `matches!` has them all.
fn goes_on_key(b: u8) -> bool
    ensures { result ≡ goes_on_key b }
{
    b.is_ascii_lowercase() || b.is_ascii_digit() || matches!(b, b'_' | b'-' | b'.' | b'*')
}

// How many octets at the front pass the test.
fn run<F: Fn(u8) -> bool>(text: &[u8], test: F) -> usize
    ghost passes: { ℕ → Bool }
    requires callable { F.IsAlwaysCallable test }
    requires tests { (b : ℕ) (r : Bool) → F.post test b r → r ≡ passes b }
    ensures within { result ≤ length text.now }
    ensures count { result ≡ prefix_len passes text.now }
{
    text.iter().take_while(|b| test(**b)).count()
}

// How many digits are at the front, counted up to one more than an integer has, and the number that they write.
fn digits(text: &[u8]) -> (usize, u64)
    ensures within { result.0 ≤ length text.now }
    ensures count { result.0 ≡ min 16 (prefix_len is_digit text.now) }
    ensures value { result.1 ≡ decimal_of (take result.0 text.now) }
    ensures bound { result.1 < 10 ^ 16 }
{
    let most = &text[..text.len().min(DIGITS + 1)];
    let mut number: u64 = 0;
    for (n, digit) in most.iter().enumerate() {
        if !is_digit(*digit) {
            return (n, number);
        }
        number = number * 10 + u64::from(*digit - b'0');
    }
    (most.len(), number)
}

// What is still to be read of a value.
#[derive(Clone, Copy)]
struct Reader<'a> {
    rest: &'a [u8],
}

impl<'a> Reader<'a> {
    // Passes over what passes the test.
    fn skip<F: Fn(u8) -> bool>(&mut self, test: F)
        ghost passes: { ℕ → Bool }
        requires callable { F.IsAlwaysCallable test }
        requires tests { (b : ℕ) (r : Bool) → F.post test b r → r ≡ passes b }
        ensures rest { self.new.rest.now ≡ past passes self.old.rest.now }
        ensures shorter { length self.new.rest.now ≤ length self.old.rest.now }
    {
        self.rest = &self.rest[run(self.rest, test)..];
    }

    fn key(&mut self) -> Option<&'a [u8]>
        ensures reads { leaving (option_map (λ x. x.now) result) self.new.rest.now ≡ key_at self.old.rest.now }
        ensures shorter { length self.new.rest.now + (if is_some result then 1 else 0) ≤ length self.old.rest.now }
    {
        let (first, tail) = self.rest.split_first()?;
        if !starts_key(*first) {
            return None;
        }
        let (key, after) = self.rest.split_at(1 + run(tail, goes_on_key));
        self.rest = after;
        Some(key)
    }

    fn integer(&mut self, negative: bool) -> Option<Item>
        ensures reads { leaving result self.new.rest.now ≡ integer_at negative self.old.rest.now }
        ensures shorter { length self.new.rest.now ≤ length self.old.rest.now }
    {
        let (n, number) = digits(self.rest);
        if !(1..=DIGITS).contains(&n) {
            return None;
        }
        self.rest = &self.rest[n..];
        let size = number as i64;
        Some(Item::Integer(if negative { -size } else { size }))
    }

    fn boolean(&mut self) -> Option<Item>
        ensures reads { leaving result self.new.rest.now ≡ boolean_at self.old.rest.now }
        ensures shorter { length self.new.rest.now ≤ length self.old.rest.now }
    {
        let (first, after) = self.rest.split_first()?;
        self.rest = after;
        match first {
            b'0' => Some(Item::Boolean(false)),
            b'1' => Some(Item::Boolean(true)),
            _ => None,
        }
    }

    fn item(&mut self) -> Option<Item>
        ensures reads { leaving result self.new.rest.now ≡ item_at self.old.rest.now }
        ensures shorter { length self.new.rest.now ≤ length self.old.rest.now }
    {
        match self.rest {
            [b'?', after @ ..] => {
                self.rest = after;
                self.boolean()
            }
            [b'-', after @ ..] => {
                self.rest = after;
                self.integer(true)
            }
            _ => self.integer(false),
        }
    }

    fn member(&mut self, latest: Latest) -> Option<Latest>
        ensures reads { leaving result self.new.rest.now ≡ member_at latest self.old.rest.now }
        ensures shorter { length self.new.rest.now + (if is_some result then 1 else 0) ≤ length self.old.rest.now }
    {
        let key = self.key()?;
        let item = match self.rest {
            [b'=', after @ ..] => {
                self.rest = after;
                self.item()?
            }
            _ => Item::Boolean(true),
        };
        Some(note(latest, key, item))
    }
}

// The latest members, after one more.
fn note(latest: Latest, key: &[u8], item: Item) -> Latest
    ensures { result ≡ noted latest key.now item }
{
    match key {
        b"u" => Latest {
            u: Some(item),
            ..latest
        },
        b"i" => Latest {
            i: Some(item),
            ..latest
        },
        _ => latest,
    }
}

// Members joined by commas, up to the end.
fn read_members(text: &[u8]) -> Option<Latest>
    ensures { result ≡ members_of (length text.now) absent text.now }
{
    let mut reader = Reader { rest: text };
    let mut latest = Latest::default();
    loop {
        latest = reader.member(latest)?;
        reader.skip(is_blank);
        match reader.rest {
            [] => return Some(latest),
            [b',', after @ ..] => reader.rest = after,
            _ => return None,
        }
        reader.skip(is_blank);
    }
}

// The latest members of a value; none where it is unreadable.
pub(crate) fn read_latest(value: &[u8]) -> Option<Latest>
    ensures { result ≡ latest_in value.now }
{
    let mut reader = Reader { rest: value };
    reader.skip(is_space);
    if reader.rest.is_empty() {
        return Some(Latest::default());
    }
    read_members(reader.rest)
}
