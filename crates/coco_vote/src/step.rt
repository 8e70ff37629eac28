//! What comes of a node that is asked for its vote.

ghost use Rattle.std.specs.Prelude.{◌≡◌};
ghost use Rattle.coco_vote.specs.Outcomes.{exchanges_in};
ghost use Rattle.coco_vote.specs.Taking.{both_of, has_lost, stops_of};

/// What came of a node that forced the entry of an epoch.
#[derive(Clone, Copy, Debug, PartialEq, Eq)]
pub enum Step {
    /// The entry is durable, and its vote went out.
    Voted,
    /// The entry is durable. The node stopped behind its vote, or before it, and began anew.
    Restarted { voted: bool },
    /// The node stopped before the entry, and has lost its rows.
    Stopped,
}

/// Which stops nodes have told that vote on an epoch.
#[derive(Clone, Copy, Debug, PartialEq, Eq)]
pub enum Stops {
    Never,
    /// Some have stopped with their entry. Nothing is lost.
    Late,
    /// One has stopped before its entry. The epoch is lost.
    Early,
}

impl Step {
    /// Which stop it is.
    pub fn stops(self) -> Stops
        ensures { result ≡ stops_of self }
    {
        match self {
            Step::Voted => Stops::Never,
            Step::Restarted { .. } => Stops::Late,
            Step::Stopped => Stops::Early,
        }
    }
}

impl Stops {
    /// These, and then others.
    pub fn and(self, next: Stops) -> Stops
        ensures { result ≡ both_of self next }
    {
        match (self, next) {
            (Stops::Never, _) => next,
            (Stops::Late, Stops::Early) => Stops::Early,
            _ => self,
        }
    }

    /// Whether an epoch is lost.
    pub fn is_early(self) -> bool
        ensures { result ≡ has_lost self }
    {
        self == Stops::Early
    }

    // How many exchanges to count: one in which a stop was told isn't.
    pub(crate) fn exchanges(self) -> u8
        ensures { result ≡ exchanges_in self }
    {
        match self {
            Stops::Never => 1,
            Stops::Late | Stops::Early => 0,
        }
    }
}
