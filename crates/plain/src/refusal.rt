// Which refusal comes first where several apply.
ghost use Rattle.plain.specs.Replies.{RefusalsRight, first_number, of_name, of_going, of_commit, of_joining, of_carrying, of_forgetting, reply_of};
ghost use Rattle.std.specs.Prelude.{◌≡◌};

use commands::Refusal;

// The plain house's turn is refused so.
pub fn refusals_are_right()
    ensures { RefusalsRight }
{}

// Refused by the first condition that holds, if one does.
fn first_of(conditions: &[(bool, Refusal)]) -> Result<(), Refusal>
    ensures { reply_of result ≡ first_number conditions.now }
{
    for (holds, refusal) in conditions {
        if *holds {
            return Err(*refusal);
        }
    }
    Ok(())
}

// A new name: taken; no commit yet to give it to.
pub fn of_name(taken: bool, no_commit: bool) -> Result<(), Refusal>
    ensures { reply_of result ≡ of_name taken no_commit }
{
    first_of(&[(taken, Refusal::Taken), (no_commit, Refusal::NotThere)])
}

// Going elsewhere: no such branch; work that differs or is being joined.
pub fn of_going(missing: bool, unclean: bool) -> Result<(), Refusal>
    ensures { reply_of result ≡ of_going missing unclean }
{
    first_of(&[(missing, Refusal::NotThere), (unclean, Refusal::Unclean)])
}

// A commit: paths that clash; nothing to note.
pub fn of_commit(unsettled: bool, unchanged: bool) -> Result<(), Refusal>
    ensures { reply_of result ≡ of_commit unsettled unchanged }
{
    first_of(&[
        (unsettled, Refusal::Clash),
        (unchanged, Refusal::NothingToDo),
    ])
}

// Joining and moving onto: no such commit, or none here; work that differs; theirs is behind ours already.
pub fn of_joining(missing: bool, unclean: bool, behind: bool) -> Result<(), Refusal>
    ensures { reply_of result ≡ of_joining missing unclean behind }
{
    first_of(&[
        (missing, Refusal::NotThere),
        (unclean, Refusal::Unclean),
        (behind, Refusal::NothingToDo),
    ])
}

// One commit once more: no such commit, or none here; work that differs; it clashes or has two parents; it changes nothing.
pub fn of_carrying(missing: bool, unclean: bool, stuck: bool, nothing: bool) -> Result<(), Refusal>
    ensures { reply_of result ≡ of_carrying missing unclean stuck nothing }
{
    first_of(&[
        (missing, Refusal::NotThere),
        (unclean, Refusal::Unclean),
        (stuck, Refusal::Clash),
        (nothing, Refusal::NothingToDo),
    ])
}

// Forgetting: no such branch; we are on it.
pub fn of_forgetting(missing: bool, here: bool) -> Result<(), Refusal>
    ensures { reply_of result ≡ of_forgetting missing here }
{
    first_of(&[(missing, Refusal::NotThere), (here, Refusal::Clash)])
}
