ghost use Rattle.std.specs.Prelude.{◌≡◌};
ghost use Rattle.rewriting.specs.Table.{kind};

use fw_rule::{Action, Side};

/// What a rule does, as a side sees it.
#[derive(Clone, Copy, Debug, PartialEq, Eq)]
pub enum ActionKind {
    GoodVerdict,
    BadVerdict,
    GoOn,
    GoBack,
    CallTo(u32),
    GoTo(u32),
}

/// What an action is to a side.
pub fn kind_of(side: Side, action: &Action) -> ActionKind
    ensures { result ≡ kind side action.now }
{
    match (side, action) {
        (Side::Upper, Action::Accept) => ActionKind::GoodVerdict,
        (Side::Upper, Action::Drop) => ActionKind::BadVerdict,
        (Side::Lower, Action::Accept) => ActionKind::BadVerdict,
        (Side::Lower, Action::Drop) => ActionKind::GoodVerdict,
        (_, Action::Pass) => ActionKind::GoOn,
        (_, Action::Back) => ActionKind::GoBack,
        (_, Action::Call(callee)) => ActionKind::CallTo(*callee),
        (_, Action::Goto(target)) => ActionKind::GoTo(*target),
        (_, Action::Other(_)) => ActionKind::GoOn,
    }
}
