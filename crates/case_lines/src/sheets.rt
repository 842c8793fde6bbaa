// The sheets made word by word: `header`, `name`, `formula` and `raw` begin a field, or bytes outside of one, and pieces follow. What
// stands before `beside` is the fittings sheet.
use arrayvec::ArrayVec;

// The bytes of both sheets at most: one that is longer is read no further than the longest that is accepted.
const BYTES: usize = 13200;

// The fields, by their tags.
#[derive(Clone, Copy, Debug, PartialEq, Eq)]
enum Field {
    Header,
    Name,
    Formula,
}

impl Field {
    fn tag(self) -> u8 {
        match self {
            Field::Header => 1,
            Field::Name => 2,
            Field::Formula => 3,
        }
    }
}

// A field that is open, and where its bytes begin.
#[derive(Clone, Copy)]
struct Open {
    field: Field,
    body: usize,
}

// Outside of hexadecimal digits, or among them with or without one that waits for its second.
#[derive(Clone, Copy, Debug, PartialEq, Eq)]
enum Digits {
    Outside,
    Whole,
    Half(u8),
}

#[derive(Drop)]
pub struct Draft {
    bytes: ArrayVec<u8, BYTES>,
    // How many of the bytes are a fittings sheet, where there is one.
    fittings: Option<usize>,
    open: Option<Open>,
    digits: Digits,
}

fn nibble(sign: u8) -> Option<u8> {
    match sign {
        b'0'..=b'9' => Some(sign - b'0'),
        b'A'..=b'F' => Some(sign - b'A' + 10),
        _ => None,
    }
}

// The code of a letter, or of a sign for an operation; ? is a code that there is not.
fn code(sign: u8) -> Option<[u8; 2]> {
    match sign {
        b'A'..=b'Z' => Some([0, sign - b'A']),
        b'|' => Some([0xFF, 0xF0]),
        b'&' => Some([0xFF, 0xF1]),
        b'-' => Some([0xFF, 0xF2]),
        b'^' => Some([0xFF, 0xF3]),
        b'?' => Some([0xFF, 0xF4]),
        _ => None,
    }
}

impl Draft {
    pub fn empty() -> Draft {
        Draft {
            bytes: ArrayVec::new(),
            fittings: None,
            open: None,
            digits: Digits::Outside,
        }
    }

    pub fn fittings(&self) -> Option<&[u8]> {
        self.bytes.as_slice().get(..self.fittings?)
    }

    pub fn customers(&self) -> &[u8] {
        self.bytes
            .as_slice()
            .get(self.fittings.unwrap_or(0)..)
            .unwrap_or(b"")
    }

    fn push(&mut self, x: u8) -> Option<()> {
        self.bytes.try_push(x).ok()
    }

    // The field that is open gets its length.
    pub fn close(&mut self) {
        if let Some(Open { body, .. }) = self.open.take() {
            let bytes = self.bytes.as_mut_slice();
            if 2 <= body && body <= bytes.len() {
                let length = bytes.len() - body;
                bytes[body - 2] = (length / 256 % 256) as u8;
                bytes[body - 1] = (length % 256) as u8;
            }
        }
    }

    fn begin(&mut self, field: Field) -> Option<()> {
        self.close();
        self.push(field.tag())?;
        self.push(0)?;
        self.push(0)?;
        self.open = Some(Open {
            field,
            body: self.bytes.len(),
        });
        Some(())
    }

    // The bytes so far are a fittings sheet, the first and only one.
    fn beside(&mut self) -> Option<()> {
        self.close();
        if self.fittings.is_some() {
            return None;
        }
        self.fittings = Some(self.bytes.len());
        Some(())
    }

    fn put_digit(&mut self, low: u8) -> Option<()> {
        if let Digits::Half(high) = self.digits {
            self.digits = Digits::Whole;
            return self.push(high % 16 * 16 + low % 16);
        }
        self.digits = Digits::Half(low);
        Some(())
    }

    // A letter of a name, or a code of a formula.
    fn put_letter(&mut self, sign: u8) -> Option<()> {
        match self.open?.field {
            Field::Header => None,
            Field::Name => self.push(sign),
            Field::Formula => {
                let [high, low] = code(sign)?;
                self.push(high)?;
                self.push(low)
            }
        }
    }

    // The sign of a piece: # begins hexadecimal digits, % is two letters that count the times, AA, AB, .. AP, BA; others are letters of a
    // name or codes of a formula.
    fn put(&mut self, sign: u8, time: usize) -> Option<()> {
        match sign {
            b'%' => {
                self.push(b'A' + (time / 16 % 32) as u8)?;
                self.push(b'A' + (time % 16) as u8)
            }
            b'#' => {
                self.digits = Digits::Whole;
                Some(())
            }
            _ if self.digits != Digits::Outside => self.put_digit(nibble(sign)?),
            _ => self.put_letter(sign),
        }
    }

    fn piece(&mut self, word: &[u8], time: usize) -> Option<()> {
        self.digits = Digits::Outside;
        for &sign in word {
            self.put(sign, time)?;
        }
        if let Digits::Half(_) = self.digits {
            None
        } else {
            Some(())
        }
    }

    fn pieces(&mut self, word: &[u8], times: usize) -> Option<()> {
        for time in 0..times {
            self.piece(word, time)?;
        }
        Some(())
    }

    // A word of a sheet, which is a piece where it is said how often it is meant.
    pub fn word(&mut self, w: &[u8], times: Option<usize>) -> Option<()> {
        if let Some(times) = times {
            return self.pieces(w, times);
        }
        match w {
            b"header" => {
                self.begin(Field::Header)?;
                self.push(0)?;
                self.push(1)
            }
            b"name" => self.begin(Field::Name),
            b"formula" => self.begin(Field::Formula),
            b"raw" => {
                self.close();
                Some(())
            }
            b"beside" => self.beside(),
            _ => self.piece(w, 0),
        }
    }
}
