// Readings, which alter nothing.
ghost use Rattle.std.specs.Prelude.{◌≡◌};
ghost use Rattle.sender.specs.Readings.{stream_read, connection_read};

use crate::connections::Connection;
use credit::Gate;
use schedule::Policy;

// A stream's window, the octets of its open grant, what is left of the window, and the octets that may be granted now.
#[derive(Clone, Copy, PartialEq, Eq, Debug)]
pub struct StreamReading {
    pub window: i32,
    pub held: u32,
    pub left: i64,
    pub room: u32,
}

// The connection's window, the octets of all open grants and what is left; the initial window and the frame size in force;
// whether the connection is live, the highest id that counts as opened, and how many grants were given.
#[derive(Clone, Copy, PartialEq, Eq, Debug)]
pub struct ConnectionReading {
    pub window: u32,
    pub held: u32,
    pub left: u32,
    pub initial_window: u32,
    pub frame_size: u32,
    pub live: bool,
    pub highest: u32,
    pub given: u32,
}

impl<G: Gate, P: Policy> Connection<G, P> {
    // What a stream has; 0 throughout where it is not open.
    pub fn stream(&self, id: u32) -> StreamReading
        ensures { result ≡ stream_read ((G.Gate.meaning self.now.gate).stream id) (G.Gate.free self.now.gate id) }
    {
        let window = self.gate.window(id).unwrap_or(0);
        let held = self.gate.held(id).unwrap_or(0);
        StreamReading {
            window,
            held,
            left: i64::from(window) - i64::from(held),
            room: self.gate.room(id),
        }
    }

    // What the connection has, and where it stands.
    pub fn reading(&self) -> ConnectionReading
        ensures { result ≡ connection_read (G.Gate.meaning self.now.gate) self.now.frame_size self.now.live self.now.highest self.now.given }
    {
        let window = self.gate.connection_window();
        let held = self.gate.connection_held();
        ConnectionReading {
            window,
            held,
            left: window.saturating_sub(held),
            initial_window: self.gate.initial_window(),
            frame_size: self.frame_size,
            live: self.live,
            highest: self.highest,
            given: self.given,
        }
    }
}
