// What a policy is: the ids that wait for octets, each with a priority, and the choice among them.
ghost use Rattle.std.specs.Prelude.{◌≡◌, ℕ, List, Option};
ghost use Rattle.schedule.specs.Ranks.{Ranks, Sound, Event, after, Least, entered, altered, left, served};
ghost use Rattle.schedule.specs.Policies.{Did, Served, ServedNext};

use wire::Priority;

// A policy: each call is accepted or refused, and a refusal or a question alters nothing.
pub trait Policy {
    ghost ranks: { Self → Ranks };

    // the choice among a list of ids
    ghost picks: { Self → List ℕ → Option ℕ };

    // what an event did to the policy in full
    ghost turned: { Self → Event → Self → Type 0 };

    // Adds an id with a priority.
    fn enter(&mut self, id: u32, priority: Priority) -> bool
        ensures { Did ranks turned (entered id priority) self.old result self.new };

    // Sets an id's priority.
    fn alter(&mut self, id: u32, priority: Priority) -> bool
        ensures { Did ranks turned (altered id priority) self.old result self.new };

    // Takes an id out.
    fn leave(&mut self, id: u32) -> bool
        ensures { Did ranks turned (left id) self.old result self.new };

    // Reports that an id was granted octets.
    fn served(&mut self, id: u32, octets: u32)
        ensures { Served ranks turned id octets self.old self.new };

    // The id whose turn it is among a list; none where no listed id is in.
    fn choose(&self, ids: &[u32]) -> Option<u32>
        ensures { result ≡ picks self.now ids.now };

    // An id's priority; none where it is not in.
    fn priority(&self, id: u32) -> Option<Priority>
        ensures { result ≡ (ranks self.now).rank id };

    // How many ids are in.
    fn entered(&self) -> u32
        ensures { result ≡ (ranks self.now).entered };

    // How many ids can be in at a time.
    fn limit(&self) -> u32
        ensures { result ≡ (ranks self.now).limit };

    ghost sound: { (s : Self) → Sound (ranks s) };

    ghost least: { (s : Self) → (ids : List ℕ) → Least (ranks s) ids (picks s ids) };

    ghost means: { (s : Self) → (event : Event) (t : Self) → turned s event t → ranks t ≡ after (ranks s) event };
}

// Chooses among a list of ids and reports the choice as served.
pub fn serve_next<P: Policy>(policy: &mut P, ids: &[u32], octets: u32) -> Option<u32>
    ensures answers { result ≡ P.Policy.picks policy.old ids.now }
    ensures serves { ServedNext P.Policy.turned octets policy.old result policy.new }
{
    let id = policy.choose(ids)?;
    policy.served(id, octets);
    Some(id)
}
