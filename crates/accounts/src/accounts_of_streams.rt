// One stream's account: what is stored of its window, and what it holds.
ghost use Rattle.std.specs.Prelude.{◌≡◌, ◌+◌, ◌<◌, ◌≤◌, true, pos, ◌+ℤ◌, ◌≤ℤ◌, if◌then◌else◌, None, Decides, MatchOption};
ghost use Rattle.credit.specs.Credit.{amount, left, at_least_0};
ghost use Rattle.accounts.specs.Accounts.{credit_at, raised_by, holding_now, spent_by, InBounds};

use records::Record;

// The largest window.
pub const MAX: u32 = 2_147_483_647;

// An account: its stream's id, the balance, which is the window less a base that all accounts share, and the amount that is held.
#[derive(Clone, Copy)]
pub struct Account {
    pub id: u32,
    pub balance: i32,
    pub held: Option<u32>,
}

impl Record for Account {
    ghost key = { λ a. a.id };

    fn id(&self) -> u32 {
        self.id
    }
}

impl Account {
    // What is held, or 0.
    pub(crate) fn amount(&self) -> u32
        ensures { result ≡ amount self.now.held }
    {
        self.held.unwrap_or(0)
    }

    // The window over a base.
    pub(crate) fn window(&self, base: u32) -> i32
        requires { InBounds (credit_at base self.now) }
        ensures { result ≡ (credit_at base self.now).window }
    {
        (i64::from(self.balance) + i64::from(base)) as i32
    }

    // The larger of 0 and what is left of the window over a base.
    pub(crate) fn spare(&self, base: u32) -> u32
        requires { base ≤ 2147483647 }
        ensures { result ≡ at_least_0 (left (credit_at base self.now)) }
    {
        let left = i64::from(self.balance) + i64::from(base) - i64::from(self.amount());
        left.max(0) as u32
    }

    // Adds to the window over a base, unless it would pass MAX.
    pub(crate) fn raise(&mut self, base: u32, v: u32) -> bool
        ensures answers { Decides result (((credit_at base self.old).window +ℤ pos v) ≤ℤ pos 2147483647) }
        ensures leaves { self.new ≡ (if result then raised_by v self.old else self.old) }
    {
        let raised = i64::from(self.balance) + i64::from(v);
        if raised + i64::from(base) > i64::from(MAX) {
            return false;
        }
        self.balance = raised as i32;
        true
    }

    // Holds an amount, unless one is held or it exceeds what is left of the window over a base.
    pub(crate) fn hold(&mut self, base: u32, n: u32) -> bool
        ensures answers { Decides result ((self.old.held ≡ None) × (n ≤ at_least_0 (left (credit_at base self.old)))) }
        ensures leaves { self.new ≡ (if result then holding_now n self.old else self.old) }
    {
        let window = i64::from(self.balance) + i64::from(base);
        if self.held.is_some() || i64::from(n) > window.max(0) {
            return false;
        }
        self.held = Some(n);
        true
    }

    // Whether octets can be spent: an amount is held, they do not exceed it, and if above 0, not the window over a base.
    fn can_spend(&self, base: u32, n: u32) -> bool
        ensures { Decides result (MatchOption self.now.held ⊥ (λ k. (n ≤ k) × (0 < n → pos n ≤ℤ (credit_at base self.now).window))) }
    {
        let window = i64::from(self.balance) + i64::from(base);
        self.held
            .is_some_and(|held| n <= held && (n == 0 || i64::from(n) <= window))
    }

    // Takes octets off the window and lets go what is held, where they can be spent.
    pub(crate) fn spend(&mut self, base: u32, n: u32) -> bool
        requires { pos base ≤ℤ (left (credit_at base self.old) +ℤ pos 2147483647) }
        ensures answers { Decides result (MatchOption self.old.held ⊥ (λ k. (n ≤ k) × (0 < n → pos n ≤ℤ (credit_at base self.old).window))) }
        ensures leaves { self.new ≡ (if result then spent_by n self.old else self.old) }
    {
        if !self.can_spend(base, n) {
            return false;
        }
        self.balance = (i64::from(self.balance) - i64::from(n)) as i32;
        self.held = None;
        true
    }
}
