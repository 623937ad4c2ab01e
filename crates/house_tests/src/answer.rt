// What is answered to a command, and all that can be asked.
use crate::model::BRANCH;
use commands::{Command, Refusal};
use pages::told::Told;
use std::alloc::{AllocError, Global};

#[derive(PartialEq, Drop)]
pub struct Answer {
    // The act that ended the command.
    pub end: Told,
    // What it showed.
    pub rows: Vec<Vec<u8>>,
}

impl Answer {
    // One that shows nothing.
    pub fn bare(heap: Global, end: Told) -> Answer {
        Answer {
            end,
            rows: Vec::new(heap),
        }
    }

    // One that is done, and shows one row.
    pub fn row(heap: Global, row: Vec<u8>) -> Result<Answer, AllocError> {
        Ok(Answer {
            end: Told::Done,
            rows: vec![in heap; row]?,
        })
    }
}

pub fn refused(why: Refusal) -> Told {
    Told::No(why.number())
}

// A house that runs, or a map beside it.
pub trait Answers {
    fn answer(&mut self, command: Command<'_>) -> Result<Answer, AllocError>;
}

// All that can be asked: what is in work, the log, and what stands at each of these paths in work and in the last commit.
pub fn look<H: Answers>(
    heap: Global,
    house: &mut H,
    paths: &[Vec<u8>],
) -> Result<Vec<Answer>, AllocError> {
    let mut seen = Vec::new(heap);
    seen.push(house.answer(Command::Status)?)?;
    seen.push(house.answer(Command::History)?)?;
    for path in paths {
        seen.push(house.answer(Command::ReadFile(path.as_slice()))?)?;
        seen.push(house.answer(Command::ShowFile(BRANCH, path.as_slice()))?)?;
    }
    Ok(seen)
}
