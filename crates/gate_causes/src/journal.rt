//! The lines of a journal, one after another.
use crate::cause::Cause;
use gate_lines::read_number;

/// How many entries of a journal were read, and whether the reply to the last event is due.
#[derive(Clone, Copy)]
pub(crate) struct Entries {
    count: u64,
    awaits_reply: bool,
}

impl Entries {
    /// The entries before the first line.
    pub(crate) fn new() -> Entries {
        Entries {
            count: 0,
            awaits_reply: false,
        }
    }

    /// Goes on by a line that is not skipped, and says what is wrong with it where it stands. What its event or its
    /// reply says is not looked at.
    pub(crate) fn advance<'a>(&mut self, line: &'a [u8]) -> Result<(), Cause<'a>> {
        let awaits_reply = self.awaits_reply;
        match line {
            [b'>', b' ', ..] if awaits_reply => {
                Err(Cause::Line("the reply to the event before it is missing"))
            }
            [b'>', b' ', ..] => {
                self.awaits_reply = true;
                Ok(())
            }
            [b'<', b' ', ..] if awaits_reply => {
                self.awaits_reply = false;
                self.count = self.count.saturating_add(1);
                Ok(())
            }
            [b'<', b' ', ..] => Err(Cause::Line("a reply with no event before it")),
            [b'b', b'a', b's', b'e', b' ', ..] if awaits_reply => {
                Err(Cause::Line("stands between an event and its reply"))
            }
            [b'b', b'a', b's', b'e', b' ', number @ ..] => self.base(number),
            _ => Err(Cause::Line("begins with none of \"> \", \"< \" and \"base \"")),
        }
    }

    /// A base, whose number is that of the entries before it.
    fn base<'a>(self, number: &'a [u8]) -> Result<(), Cause<'a>> {
        match std::str::from_utf8(number) {
            Ok(text) if read_number(text) == Some(self.count) => Ok(()),
            Ok(text) => Err(Cause::WrongBase(text, self.count)),
            Err(_) => Err(Cause::Line("is not UTF-8")),
        }
    }
}
