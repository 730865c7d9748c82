// The record of one open stream.
ghost use Rattle.sender.specs.Answers.{Offers};

use model::Done;
use records::Record;
use wire::{Cause, Fault};

// A stream: its id, the octets that wait to be sent, whether their end was offered, and the number of its open grant.
#[derive(Clone, Copy)]
pub struct Stream {
    pub id: u32,
    pub queue: u32,
    pub ended: bool,
    pub grant: Option<u32>,
}

impl Record for Stream {
    ghost key = { λ x. x.id };

    fn id(&self) -> u32 {
        self.id
    }
}

impl Stream {
    // Queues octets, and perhaps their end; refused once the end was offered, and where too many would wait.
    pub(crate) fn offer(&mut self, octets: u32, end: bool) -> Result<Done, Fault>
        ensures { Offers self.old octets end result self.new }
    {
        if self.ended {
            return Err(Fault::new(Cause::EndOffered, self.id, 0));
        }
        let queue = u64::from(self.queue) + u64::from(octets);
        if queue > 2_147_483_647 {
            return Err(Fault::new(Cause::QueueOverflow, self.id, 0));
        }
        self.queue = queue as u32;
        self.ended = end;
        Ok(Done::Offered {
            id: self.id,
            octets,
            end,
        })
    }
}
