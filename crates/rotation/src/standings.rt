// Where a seat stands among others.
ghost use Rattle.std.specs.Prelude.{◌≡◌};
ghost use Rattle.rotation.specs.Choices.{group_number, sooner};

// Our groups within an urgency, the first one first.
#[derive(Clone, Copy, PartialEq, Eq, PartialOrd, Ord)]
pub enum Group {
    // Not incremental, where a rule prefers such.
    Plain,
    // Not served since it entered.
    New,
    // Served since it entered.
    Served,
}

impl Group {
    // The group's number, from 0 to 2.
    pub fn number(self) -> u8
        ensures { result ≡ group_number self }
    {
        self as u8
    }
}

// Where a seat stands: the smaller urgency comes first, then the smaller group, then the smaller number.
#[derive(Clone, Copy, PartialEq, Eq, PartialOrd, Ord)]
pub struct Standing {
    // The law of a rule is on the number of an urgency.
    pub urgency: u8,
    // A number, so that a rule may have other groups than ours.
    pub group: u8,
    pub number: u64,
}

// Whether a standing comes before the best so far, if there is one; options themselves put none first, and here it comes last.
pub(crate) fn is_sooner(standing: Option<Standing>, best: Option<Standing>) -> bool
    ensures { result ≡ sooner standing best }
{
    match (standing, best) {
        (None, _) => false,
        (Some(_), None) => true,
        (Some(s), Some(b)) => s < b,
    }
}
