// The seats of an order.
use records::Record;
use wire::Priority;

// A seat: an id, its priority, and whether it was served since it entered.
#[derive(Clone, Copy)]
pub struct Seat {
    pub id: u32,
    pub priority: Priority,
    pub served: bool,
}

impl Record for Seat {
    ghost key = { λ s. s.id };

    fn id(&self) -> u32 {
        self.id
    }
}
