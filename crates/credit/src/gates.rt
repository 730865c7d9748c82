// What a gate is: the keeper of the send credit of one connection and its streams.
ghost use Rattle.std.specs.Prelude.{◌≡◌, ℕ, ◌≤◌};
ghost use Rattle.credit.specs.Credit.{Meaning, Sound, most_room, window_of, held_of};
ghost use Rattle.credit.specs.Calls.{Call, after, begin, finish, raise, initial, hold, spend};
ghost use Rattle.credit.specs.Gates.{Did};

// A gate: each call is accepted or refused, and a refusal or a question alters nothing.
pub trait Gate {
    ghost meaning: { Self → Meaning };

    // the room of each stream: the octets that may be held of it now
    ghost free: { Self → ℕ → ℕ };

    // what an accepted call did to the gate in full
    ghost moved: { Self → Call → Self → Type 0 };

    // Starts a stream with the initial window and nothing held.
    fn begin(&mut self, id: u32) -> bool
        ensures { Did meaning free moved (begin id) self.old result self.new };

    // Lets a stream go, and what it holds.
    fn finish(&mut self, id: u32) -> bool
        ensures { Did meaning free moved (finish id) self.old result self.new };

    // Adds to a stream's window, at 0 to the connection's.
    fn raise(&mut self, id: u32, v: u32) -> bool
        ensures { Did meaning free moved (raise id v) self.old result self.new };

    // Sets the initial window, and moves every stream's window by the difference.
    fn initial(&mut self, v: u32) -> bool
        ensures { Did meaning free moved (initial v) self.old result self.new };

    // Holds octets of a stream's room.
    fn hold(&mut self, id: u32, n: u32) -> bool
        ensures { Did meaning free moved (hold id n) self.old result self.new };

    // Takes octets off both windows, and lets go what the stream holds.
    fn spend(&mut self, id: u32, n: u32) -> bool
        ensures { Did meaning free moved (spend id n) self.old result self.new };

    // The octets that may be held of a stream now.
    fn room(&self, id: u32) -> u32
        ensures { result ≡ free self.now id };

    // A stream's window; none where it is not begun.
    fn window(&self, id: u32) -> Option<i32>
        ensures { result ≡ window_of ((meaning self.now).stream id) };

    // What a stream holds; none where it holds nothing or is not begun.
    fn held(&self, id: u32) -> Option<u32>
        ensures { result ≡ held_of ((meaning self.now).stream id) };

    fn initial_window(&self) -> u32
        ensures { result ≡ (meaning self.now).initial };

    fn connection_window(&self) -> u32
        ensures { result ≡ (meaning self.now).connection };

    // What the streams hold together.
    fn connection_held(&self) -> u32
        ensures { result ≡ (meaning self.now).held };

    // How many streams are begun.
    fn begun(&self) -> u32
        ensures { result ≡ (meaning self.now).begun };

    // How many streams can be begun at a time.
    fn limit(&self) -> u32
        ensures { result ≡ (meaning self.now).limit };

    ghost sound: { (g : Self) → Sound (meaning g) };

    ghost roomy: { (g : Self) → (id : ℕ) → free g id ≤ most_room (meaning g) id };

    ghost means: { (s : Self) (call : Call) (t : Self) → moved s call t → meaning t ≡ after (meaning s) call };
}
