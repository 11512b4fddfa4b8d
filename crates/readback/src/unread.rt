// Why a listing is not read.
ghost use Rattle.std.specs.Prelude.{◌≡◌, None, Some};
ghost use Rattle.plan.specs.declared.refusal.Refusal.TheVariants.{Line};

use crate::scanning::Malformed;
use plan::Refusal;

// The refusal, and the line that met it; none where it is the plan's.
#[derive(Clone, Copy, Debug, PartialEq, Eq)]
pub struct Unread {
    pub refusal: Refusal,
    pub line: Option<usize>,
}

// A refusal of the plan, which no line met.
impl From<Refusal> for Unread {
    ghost from_gives = { λ refusal unread. unread ≡ record { refusal = refusal; line = None } };

    fn from(refusal: Refusal) -> Unread {
        Unread {
            refusal,
            line: None,
        }
    }
}

// 13 comes with the line that is malformed or missing.
impl From<Malformed> for Unread {
    ghost from_gives = { λ bad unread. unread ≡ record { refusal = Line; line = Some bad.line } };

    fn from(bad: Malformed) -> Unread {
        Unread {
            refusal: Refusal::Line,
            line: Some(bad.line),
        }
    }
}
