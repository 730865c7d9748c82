// The credit law over the model of a connection.
ghost use Rattle.std.specs.Prelude.{◌≡◌, []};
ghost use Rattle.model.specs.Histories.{initial_in};
ghost use Rattle.model.specs.Laws.{Every-run};

// The window that a connection and each of its streams begin with. Of every history from a fresh start, over every gate,
// policy and sink that keeps its meaning, the credit law holds.
pub fn first_window() -> u32
    ensures window { result ≡ initial_in [] }
    ensures law { Every-run }
{
    65_535
}
