ghost use Rattle.std.specs.Prelude.{◌≡◌};
ghost use Rattle.explain.specs.inner.Reaching as spec;

use fw_rule::{Action, Verdict};

/// Whether a rule matches.
#[derive(Clone, Copy)]
pub(crate) enum Match {
    /// A known literal fails.
    Fails,
    Holds,
    /// Its known literals hold, and others are unknown.
    Doubtful,
}

/// Whether the wanted verdict can be reached from a rule of a chain on.
#[derive(Clone, Copy)]
pub(crate) enum Reach {
    Never,
    /// Where it can be reached from the chain's end on.
    PastEnd,
    Inside,
}

/// How a rule matches.
pub(crate) fn match_of(known_holds: bool, doubtful: bool) -> Match
    ensures { result ≡ spec.match_of known_holds doubtful }
{
    match (known_holds, doubtful) {
        (false, _) => Match::Fails,
        (true, false) => Match::Holds,
        (true, true) => Match::Doubtful,
    }
}

/// The better of two.
fn better(one: Reach, other: Reach) -> Reach
    ensures { result ≡ spec.better one other }
{
    match (one, other) {
        (Reach::Inside, _) => Reach::Inside,
        (Reach::PastEnd, Reach::Inside) => Reach::Inside,
        (Reach::PastEnd, _) => Reach::PastEnd,
        (Reach::Never, _) => other,
    }
}

/// What is reached through a chain that is called, and on behind the call.
fn through(callee: Reach, behind: Reach) -> Reach
    ensures { result ≡ spec.through callee behind }
{
    match callee {
        Reach::Inside => Reach::Inside,
        Reach::PastEnd => behind,
        Reach::Never => Reach::Never,
    }
}

/// What a verdict reaches.
fn by_verdict(wanted: Verdict, verdict: Verdict) -> Reach
    ensures { result ≡ spec.by_verdict wanted verdict }
{
    match (wanted, verdict) {
        (Verdict::Accept, Verdict::Accept) => Reach::Inside,
        (Verdict::Drop, Verdict::Drop) => Reach::Inside,
        (Verdict::Accept, Verdict::Drop) => Reach::Never,
        (Verdict::Drop, Verdict::Accept) => Reach::Never,
    }
}

/// What a rule reaches that is taken, where `callee` is what is reached in the chain that it leads to. Behind a goto nothing
/// is met.
pub(crate) fn by_action(wanted: Verdict, callee: Reach, behind: Reach, action: &Action) -> Reach
    ensures { result ≡ spec.by_action wanted callee behind action.now }
{
    match action {
        Action::Accept => by_verdict(wanted, Verdict::Accept),
        Action::Drop => by_verdict(wanted, Verdict::Drop),
        Action::Pass => behind,
        Action::Back => Reach::PastEnd,
        Action::Call(_) => through(callee, behind),
        Action::Goto(_) => callee,
        Action::Other(_) => Reach::Never,
    }
}

/// What a rule reaches that is taken or passed over as it matches.
pub(crate) fn by_match(matching: Match, taken: Reach, behind: Reach) -> Reach
    ensures { result ≡ spec.by_match matching taken behind }
{
    match matching {
        Match::Fails => behind,
        Match::Holds => taken,
        Match::Doubtful => better(taken, behind),
    }
}

/// Whether the verdict is reached, by whether it can be from the chain's end on.
pub(crate) fn is_reached(reach: Reach, past_end: bool) -> bool
    ensures { result ≡ spec.is_reached reach past_end }
{
    match reach {
        Reach::Never => false,
        Reach::PastEnd => past_end,
        Reach::Inside => true,
    }
}
