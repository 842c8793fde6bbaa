// A case as its line is read, after its name: its job, its sheets and its lists.
use crate::lists::{List, Lists};
use crate::sheets::Draft;
use crate::words::{ends_a_word, number};
use arrayvec::ArrayVec;

#[derive(Clone, Copy, Debug, PartialEq, Eq)]
pub enum Job {
    Read,
    Build,
    Run,
    Classify,
}

impl Job {
    fn named(w: &[u8]) -> Option<Job> {
        match w {
            b"read" => Some(Job::Read),
            b"build" => Some(Job::Build),
            b"run" => Some(Job::Run),
            b"classify" => Some(Job::Classify),
            _ => None,
        }
    }

    // Whether the job takes these lists, in this order, of which so many entries are of rooms: as many as it has answer lists.
    fn takes(self, given: &[List], rooms: usize) -> bool {
        match (self, given) {
            (Job::Read | Job::Build, []) => true,
            (Job::Build, [List::Room]) => rooms == 3,
            (Job::Run, [List::Shapes]) => true,
            (Job::Run, [List::Shapes, List::Room]) => rooms == 3,
            (Job::Classify, [List::Rows, List::Lines, List::Positions, List::Shapes]) => true,
            (
                Job::Classify,
                [
                    List::Rows,
                    List::Lines,
                    List::Positions,
                    List::Shapes,
                    List::Room,
                ],
            ) => rooms == 5,
            _ => false,
        }
    }
}

#[derive(Drop)]
pub struct Case {
    pub job: Job,
    pub sheet: Draft,
    pub lists: Lists,
}

// What the next word is of.
#[derive(Clone, Copy, Debug, PartialEq, Eq)]
enum Part {
    Job,
    Sheet,
    Heading,
    List(List),
}

#[derive(Drop)]
struct Reading {
    job: Option<Job>,
    sheet: Draft,
    lists: Lists,
    // The lists that the line has, in their order.
    given: ArrayVec<List, 8>,
    part: Part,
    // How often the next piece is meant, where that is said.
    times: Option<usize>,
}

impl Reading {
    fn begin() -> Reading {
        Reading {
            job: None,
            sheet: Draft::empty(),
            lists: Lists::none(),
            given: ArrayVec::new(),
            part: Part::Job,
            times: None,
        }
    }

    // A star, which only a piece of a sheet may follow.
    fn often(&mut self, w: &[u8]) -> Option<()> {
        let n = number(w)?;
        if self.part != Part::Sheet || self.times.is_some() || n == 0 || 65535 < n {
            return None;
        }
        self.times = usize::try_from(n).ok();
        Some(())
    }

    fn heading(&mut self, list: List) -> Option<()> {
        self.part = Part::List(list);
        self.given.try_push(list).ok()
    }

    fn word(&mut self, w: &[u8]) -> Option<()> {
        let times = self.times.take();
        match self.part {
            Part::Job => {
                self.job = Some(Job::named(w)?);
                self.part = Part::Sheet;
                Some(())
            }
            Part::Sheet => self.sheet.word(w, times),
            Part::Heading => self.heading(List::named(w)?),
            Part::List(list) => self.lists.put(list, w),
        }
    }

    // A word, and the sign that ends it.
    fn take(&mut self, w: &[u8], sign: u8) -> Option<()> {
        if sign == b'*' {
            return self.often(w);
        }
        if !w.is_empty() {
            self.word(w)?;
        }
        if sign == b':' || (self.times.is_some() && sign != b' ') {
            return None;
        }
        if sign == b',' {
            self.part = Part::Heading;
        }
        Some(())
    }

    fn ended(self) -> Option<Case> {
        let Reading {
            job,
            mut sheet,
            lists,
            given,
            ..
        } = self;
        let job = job?;
        if !job.takes(given.as_slice(), lists.room.len()) {
            return None;
        }
        sheet.close();
        Some(Case { job, sheet, lists })
    }
}

// The case that a line says after its name.
pub fn read(line: &[u8]) -> Option<Case> {
    let mut reading = Reading::begin();
    let mut from = 0;
    for (i, &byte) in line.iter().enumerate() {
        if ends_a_word(byte) {
            reading.take(line.get(from..i)?, byte)?;
            from = i + 1;
        }
    }
    reading.take(line.get(from..)?, b'\n')?;
    reading.ended()
}
