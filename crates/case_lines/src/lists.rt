// The lists that a case gives, number by number.
use crate::words::{number, signed};
use arrayvec::ArrayVec;

#[derive(Clone, Copy, Debug, PartialEq, Eq, Default)]
pub enum List {
    #[default]
    Rows,
    Lines,
    Positions,
    Shapes,
    // How many entries of each answer list are lent.
    Room,
}

impl List {
    pub fn named(w: &[u8]) -> Option<List> {
        match w {
            b"rows" => Some(List::Rows),
            b"lines" => Some(List::Lines),
            b"positions" => Some(List::Positions),
            b"shapes" => Some(List::Shapes),
            b"room" => Some(List::Room),
            _ => None,
        }
    }
}

const MOST: usize = 64;

const ROOMS: usize = 8;

#[derive(Drop)]
pub struct Lists {
    pub rows: ArrayVec<u8, MOST>,
    pub lines: ArrayVec<u32, MOST>,
    pub positions: ArrayVec<i32, MOST>,
    pub shapes: ArrayVec<u16, MOST>,
    pub room: ArrayVec<usize, ROOMS>,
}

// As many entries of an answer list as a case may lend.
pub const LENT: usize = 3072;

fn room(w: &[u8]) -> Option<usize> {
    let n = usize::try_from(number(w)?).ok()?;
    if n <= LENT { Some(n) } else { None }
}

impl Lists {
    pub fn none() -> Lists {
        Lists {
            rows: ArrayVec::new(),
            lines: ArrayVec::new(),
            positions: ArrayVec::new(),
            shapes: ArrayVec::new(),
            room: ArrayVec::new(),
        }
    }

    // A number at the end of a list.
    pub fn put(&mut self, list: List, w: &[u8]) -> Option<()> {
        match list {
            List::Rows => self.rows.try_push(u8::try_from(number(w)?).ok()?).ok(),
            List::Lines => self.lines.try_push(u32::try_from(number(w)?).ok()?).ok(),
            List::Positions => self
                .positions
                .try_push(i32::try_from(signed(w)?).ok()?)
                .ok(),
            List::Shapes => self.shapes.try_push(u16::try_from(number(w)?).ok()?).ok(),
            List::Room => self.room.try_push(room(w)?).ok(),
        }
    }

    // How many entries of answer list k are lent: 16 where the case does not say.
    pub fn room(&self, k: usize) -> usize {
        self.room.get(k).copied().unwrap_or(16)
    }
}
