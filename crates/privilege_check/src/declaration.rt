// What names stand for.
ghost use Rattle.std.specs.Prelude.{◌≡◌, Some};
ghost use Rattle.privilege_check.specs.Uses.{as_held, as_variable, is_asked, of_kind};

use job_reader::JobKind;
use swan_model::{Kind, Mode};

/// What a name stands for in a task.
#[derive(Clone, Copy, Debug, PartialEq, Eq)]
pub enum Declaration {
    /// A variable of this kind.
    Variable(Kind),
    /// An object or a queue, as the mode says, of this kind. The mode is how it may be used.
    Held(Mode, Kind),
}

/// Whether a kind is the one that a place asks, if it asks one.
fn is_asked(asked: Option<Kind>, kind: Kind) -> bool
    ensures { result ≡ is_asked asked kind }
{
    match asked {
        None => true,
        Some(wanted) => wanted == kind,
    }
}

/// The kind. Kind comes exactly where it isn't the one that a place asks.
pub fn of_kind(asked: Option<Kind>, kind: Kind) -> Result<Kind, JobKind>
    ensures { result ≡ of_kind asked kind }
{
    if is_asked(asked, kind) {
        Ok(kind)
    } else {
        Err(JobKind::Kind)
    }
}

impl Declaration {
    /// The kind of a variable. Kind comes exactly where it is none, or isn't of the kind that is asked.
    pub fn as_variable(self, asked: Option<Kind>) -> Result<Kind, JobKind>
        ensures { result ≡ as_variable asked (Some self) }
    {
        match self {
            Declaration::Variable(kind) => of_kind(asked, kind),
            Declaration::Held(_, _) => Err(JobKind::Kind),
        }
    }

    /// The kind of an object or a queue that is used by a mode. Kind comes exactly where it isn't of the
    /// mode's sort or of the kind that is asked, and else Privilege where it may not be used so.
    pub fn as_held(self, asked: Option<Kind>, mode: Mode) -> Result<Kind, JobKind>
        ensures { result ≡ as_held asked mode (Some self) }
    {
        match self {
            Declaration::Variable(_) => Err(JobKind::Kind),
            Declaration::Held(own, kind) => {
                if own.is_of_queues() != mode.is_of_queues() || !is_asked(asked, kind) {
                    Err(JobKind::Kind)
                } else if own.allows(mode) {
                    Ok(kind)
                } else {
                    Err(JobKind::Privilege)
                }
            }
        }
    }
}
