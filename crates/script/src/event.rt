//! The events of a script.

ghost use Rattle.std.specs.Prelude.{◌≡◌};

use z_types::Text;

/// What happens in a replay. Clients have the numbers 1 to 10000. A target is its place among those of
/// the route, counted from 0.
#[derive(PartialEq, Eq, Clone, Drop)]
pub enum Event {
    /// These octets are appended to the client's input.
    Feed(u32, Text),
    /// The client's input ends.
    End(u32),
    /// The client's connection takes one step.
    Step(u32),
    /// The client's connection takes steps until it is idle.
    Run(u32),
    /// The clock goes on by this many seconds.
    Tick(u32),
    /// Each of the next Presents, as many as this, that reach the target finds all result sets of its
    /// session deleted.
    Gone(u32, u32),
    /// All links with the target that are open are cut.
    Cut(u32),
    /// The replies that the target makes from now on arrive after this many looks that find nothing.
    Slow(u32, u32),
}

impl Event {
    ghost use Rattle.script.specs.Events.{client_of, octets_of, ended_by};

    /// The number of the client, if the event is of one.
    pub fn client(&self) -> Option<u32>
        ensures { result ≡ client_of self.now }
    {
        match self {
            Event::Feed(client, _) => Some(*client),
            Event::End(client) => Some(*client),
            Event::Step(client) => Some(*client),
            Event::Run(client) => Some(*client),
            Event::Tick(_) | Event::Gone(_, _) | Event::Cut(_) | Event::Slow(_, _) => None,
        }
    }

    /// The octets that are appended to the client's input.
    pub fn octets(&self) -> &[u8]
        ensures { result.now ≡ octets_of self.now }
    {
        match self {
            Event::Feed(_, octets) => octets.as_slice(),
            _ => &[],
        }
    }

    /// The client whose input it ends.
    pub(crate) fn ended_by(&self) -> Option<u32>
        ensures { result ≡ ended_by self.now }
    {
        match self {
            Event::End(client) => Some(*client),
            _ => None,
        }
    }
}
