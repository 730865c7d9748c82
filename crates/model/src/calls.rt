// The calls of a connection, and what is answered where they are carried out.
use wire::Priority;

// A call of a host.
#[derive(Clone, Copy)]
pub enum Call<'a> {
    // The octets of one frame that the peer sent.
    Frame(&'a [u8]),
    // A request opens a stream; the value is that of its priority field.
    Open { id: u32, value: &'a [u8] },
    // Octets of the response are there to be sent, and perhaps its end.
    Offer { id: u32, octets: u32, end: bool },
    // Asks for a grant: whose turn it is, and how many octets may go.
    Lease,
    // Sends at most the octets of a grant, and ends it.
    Settle { grant: u32, payload: &'a [u8] },
}

// A grant: leave to send octets of a stream. Its number counts the grants of the connection from 1 on.
#[derive(Clone, Copy, PartialEq, Eq, Debug)]
pub struct Grant {
    pub number: u32,
    pub id: u32,
    pub octets: u32,
}

// What a call did.
#[derive(Clone, Copy, PartialEq, Eq, Debug)]
pub enum Done {
    // A frame, by its header's type and stream, was accepted or passed over.
    Frame {
        kind: u8,
        stream: u32,
        accepted: bool,
    },
    Opened {
        id: u32,
        priority: Priority,
    },
    Offered {
        id: u32,
        octets: u32,
        end: bool,
    },
    Granted(Grant),
    // A DATA frame was put, with END_STREAM or not, and the grant is settled.
    Sent {
        grant: u32,
        id: u32,
        octets: u32,
        end: bool,
    },
    // The grant is settled, and no frame was put.
    Back {
        grant: u32,
        id: u32,
    },
}
