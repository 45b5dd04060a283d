// The cases of a table, tried.
use crate::table::Record;
use anyhow::anyhow;
use listing::{MOST_ANSWER, answer_on_stack};
use std::alloc::{AllocError, Global};

// The cases that were tried, and what is known of the next ones.
#[derive(Drop)]
pub struct Trial<'a> {
    heap: Global,
    base: &'a [u8],
    // the case whose answers are being read
    case: Option<Record<'a>>,
    answers: Vec<&'a [u8]>,
    place: Vec<u8>,
    cases: u64,
    wrong: u64,
}

impl<'a> Trial<'a> {
    pub fn new(heap: Global) -> Result<Trial<'a>, AllocError> {
        Ok(Trial {
            heap,
            base: &[],
            case: None,
            answers: Vec::new(heap),
            place: vec![in heap; 0; MOST_ANSWER]?,
            cases: 0,
            wrong: 0,
        })
    }

    // How many tickets were answered.
    pub fn cases(&self) -> u64 {
        self.cases
    }

    // How many of them wrongly.
    pub fn wrong(&self) -> u64 {
        self.wrong
    }

    // Whether the ticket is answered by one of the right answers.
    fn is_right(&mut self, ticket: &[u8]) -> bool {
        let place = self.place.as_mut_slice();
        let Ok(length) = answer_on_stack(ticket, place).text else {
            return false;
        };
        match place.get(..length) {
            Some(text) => self.answers.iter().any(|answer| *answer == text),
            None => false,
        }
    }

    // Tries one ticket.
    fn try_ticket(&mut self, ticket: &[u8]) {
        self.cases = self.cases.saturating_add(1);
        if !self.is_right(ticket) {
            self.wrong = self.wrong.saturating_add(1);
        }
    }

    // Tries the base with each of some values at a place.
    fn try_values(&mut self, place: usize, low: u8, high: u8) -> Result<(), anyhow::Error> {
        let mut ticket = Vec::new(self.heap);
        ticket.extend_from_slice(self.base)?;
        for value in low..=high {
            let byte = ticket.get_mut(place).ok_or(anyhow!("no such place"))?;
            *byte = value;
            self.try_ticket(ticket.as_slice());
        }
        Ok(())
    }

    // Tries the case whose answers were read.
    fn settle(&mut self) -> Result<(), anyhow::Error> {
        match self.case.take() {
            Some(Record::Whole) => self.try_ticket(self.base),
            Some(Record::Cut(length)) => {
                let front = self.base.get(..length).ok_or(anyhow!("no such front"))?;
                self.try_ticket(front);
            }
            Some(Record::Set { place, low, high }) => self.try_values(place, low, high)?,
            _ => {}
        }
        self.answers.clear();
        Ok(())
    }

    // Takes the next record: whether more are to come.
    pub fn take(&mut self, record: Record<'a>) -> Result<bool, anyhow::Error> {
        match record {
            Record::Answer(answer) => self.answers.push(answer)?,
            Record::Base(base) => {
                self.settle()?;
                self.base = base;
            }
            Record::End => {
                self.settle()?;
                return Ok(false);
            }
            case => {
                self.settle()?;
                self.case = Some(case);
            }
        }
        Ok(true)
    }
}
