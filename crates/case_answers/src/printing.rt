// What is printed of an answer. A write that fails gives its error, and what was printed before stays.
use outcome::Refusal;
use std::fmt::Display;
use std::io;

// A refusal of the fittings sheet says so.
pub fn refused(rt: &impl Print, why: Refusal) -> io::Result<()> {
    let (sheet, fault) = match why {
        Refusal::Refused(fault) => ("", fault),
        Refusal::Unfit(fault) => (" fittings", fault),
    };
    let number = fault.reason.number();
    let place = fault.place;
    print!(rt; "{sheet} refused {number} {place}")
}

// The number that is given, after a word; 0 of a refusal.
pub fn counted(rt: &impl Print, word: &str, answer: Result<usize, Refusal>) -> io::Result<usize> {
    match answer {
        Ok(n) => {
            print!(rt; " {word} {n}")?;
            Ok(n)
        }
        Err(why) => {
            refused(rt, why)?;
            Ok(0)
        }
    }
}

// The first entries of a list of which so many were given: those and the four after, 16 at most.
pub fn show<T: Display>(rt: &impl Print, name: &str, list: &[T], given: usize) -> io::Result<()> {
    print!(rt; ", {name}")?;
    for entry in list.iter().take(given.saturating_add(4).min(16)) {
        print!(rt; " {entry}")?;
    }
    Ok(())
}
