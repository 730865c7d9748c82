// SETTINGS: every pair is tested before any applies.
ghost use Rattle.std.specs.Prelude.{◌≡◌, ◌<◌, pos, ◌+ℤ◌, ◌-ℤ◌, ◌≤ℤ◌, IfSome, if◌then◌else◌, Some, Decides, nat_eq};
ghost use Rattle.sink.specs.Meaning.{Meaning};
ghost use Rattle.credit.specs.Calls.{Accepts, initial, shifted};
ghost use Rattle.wire.specs.Frames.{settings};
ghost use Rattle.wire.specs.Parameters.{identifier_of};
ghost use Rattle.wire.specs.Settings.{to_come};
ghost use Rattle.model.specs.Happenings.{after, renewing, last_of};
ghost use Rattle.model.specs.States.{Tied};
ghost use Rattle.sender.specs.Answers.{Handles, TestsPair, TestsPairs};
ghost use Rattle.sender.specs.Connections.{moment_of, state_of};

use crate::connections::Connection;
use credit::Gate;
use schedule::Policy;
use wire::{Cause, Fault, Pairs, Parameter, Setting};

// The value of a pair, if it has the identifier, else the latest so far.
fn newer(latest: Option<u32>, pair: Setting, identifier: u16) -> Option<u32>
    ensures { result ≡ (if nat_eq pair.identifier identifier then Some pair.value else latest) }
{
    if pair.identifier == identifier {
        Some(pair.value)
    } else {
        latest
    }
}

// The value of the last pair that tells a setting.
fn last_value(pairs: Pairs, setting: Parameter) -> Option<u32>
    ensures { result ≡ last_of (identifier_of setting) (to_come pairs.entry) }
{
    let identifier = setting.identifier();
    let mut latest = None;
    // A fold carries the latest no more plainly than this loop.
    for pair in pairs {
        latest = newer(latest, pair, identifier);
    }
    latest
}

// Whether a window does not pass the maximum when it moves by what a new initial window differs from the one before.
fn window_fits(window: i32, before: u32, v: u32) -> bool
    ensures { Decides result ((window +ℤ (pos v -ℤ pos before)) ≤ℤ pos 2147483647) }
{
    i64::from(window) + i64::from(v) <= 2_147_483_647 + i64::from(before)
}

impl<G: Gate, P: Policy> Connection<G, P> {
    // Whether a stream's window does not pass the maximum when a new initial window takes the place of the one before.
    fn stream_fits(&self, id: u32, before: u32, v: u32) -> bool
        ensures { Decides result (IfSome ((G.Gate.meaning self.now.gate).stream id) (λ c. (shifted before v c).window ≤ℤ pos 2147483647)) }
    {
        self.gate
            .window(id)
            .is_none_or(|window| window_fits(window, before, v))
    }

    // Whether neither an initial window nor a stream's window under it passes the maximum.
    fn initial_fits(&self, v: u32) -> bool
        ensures { (k : Meaning) → Tied (state_of G.Gate P.Policy self.now k) → Decides result (Accepts (G.Gate.meaning self.now.gate) (G.Gate.free self.now.gate) (initial v)) }
    {
        if v > 2_147_483_647 {
            return false;
        }
        let before = self.gate.initial_window();
        self.streams
            .rows
            .iter()
            .all(|stream| self.stream_fits(stream.id, before, v))
    }

    fn test_pair(&self, pair: Setting) -> Result<(), Fault>
        ensures { (k : Meaning) → Tied (state_of G.Gate P.Policy self.now k) → TestsPair (moment_of G.Gate P.Policy self.now k) pair result }
    {
        match Parameter::try_from(pair.identifier) {
            Ok(Parameter::InitialWindow) => {
                if self.initial_fits(pair.value) {
                    Ok(())
                } else {
                    Err(Fault::new(Cause::FlowControl, 0, pair.place))
                }
            }
            Ok(Parameter::FrameSize) => {
                if (16_384..=16_777_215).contains(&pair.value) {
                    Ok(())
                } else {
                    Err(Fault::new(Cause::Protocol, 0, pair.place))
                }
            }
            Err(_) => Ok(()),
        }
    }

    fn test_pairs(&self, pairs: Pairs) -> Result<(), Fault>
        ensures { (k : Meaning) → Tied (state_of G.Gate P.Policy self.now k) → TestsPairs (moment_of G.Gate P.Policy self.now k) (to_come pairs.entry) result }
    {
        for pair in pairs {
            self.test_pair(pair)?;
        }
        Ok(())
    }

    // A new initial window and a new frame size take effect, each or none.
    fn renew(&mut self, window: Option<u32>, size: Option<u32>)
        ensures { (k : Meaning) → IfSome window (λ v. Accepts (G.Gate.meaning self.old.gate) (G.Gate.free self.old.gate) (initial v)) → (state_of G.Gate P.Policy self.new k ≡ after (state_of G.Gate P.Policy self.old k) (renewing window size)) }
    {
        if let Some(v) = window {
            let _ = self.gate.initial(v);
        }
        if let Some(v) = size {
            self.frame_size = v;
        }
    }

    pub(crate) fn settings(&mut self, pairs: Pairs) -> Result<bool, Fault>
        ensures { (k : Meaning) → Handles (moment_of G.Gate P.Policy self.old k) (settings pairs.entry.octets.now pairs.entry.place) result (moment_of G.Gate P.Policy self.new k) }
    {
        self.test_pairs(pairs)?;
        let window = last_value(pairs, Parameter::InitialWindow);
        let size = last_value(pairs, Parameter::FrameSize);
        self.renew(window, size);
        Ok(true)
    }
}
