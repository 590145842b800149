// The night, step by step: what is asked, what the paper says comes of it, and what came of it.
use crate::found::Found;
use crate::guest::Guest;
use crate::row::Row;
use crate::show::{self, Answer, Tally};
use std::fmt::Write;
use std::io::{self, Print, Stdout};

#[derive(Drop)]
pub struct Night {
    out: Stdout,
    guest: Guest,
    found: Found,
    tally: Tally,
}

impl Night {
    pub fn new(out: Stdout) -> Night {
        Night {
            out,
            guest: Guest::new(out),
            found: Found::new(),
            tally: Tally::default(),
        }
    }

    // What a row of the script does. A step begins with what it asks, and ends with what the paper says of it.
    pub fn follow(&mut self, row: Row<'_>) -> io::Result<()> {
        match row {
            Row::Part(words) => self.part(words)?,
            Row::Asks(words) => self.asks(words)?,
            Row::Write(list) => self.guest.write(list)?,
            Row::Runs { record } => self.guest.runs(record)?,
            Row::Start(plan) => {
                let answer = show::launched(self.guest.launch(plan));
                write!(self.found, " {answer}")?;
            }
            Row::Call { asked, caller } => {
                let called = self.guest.call(asked, caller)?;
                let answer = Answer { asked, called };
                write!(self.found, " {answer}")?;
            }
            Row::Value(look) => self.found.value(&self.guest.memory, look)?,
            Row::Byte(look) => self.found.value(&self.guest.table, look)?,
            Row::Then(said) => self.compare(said)?,
            Row::Note => {}
        }
        Ok(())
    }

    // A label, and words of the script's, which need not be text.
    fn say(&self, label: &str, words: &[u8]) -> io::Result<()> {
        self.out.print(label)?;
        self.out.write_all(words)
    }

    // What a part of the night is about, and a ruler over its maps.
    fn part(&self, words: &[u8]) -> io::Result<()> {
        self.say("\n", words)?;
        self.out.print(show::RULER)
    }

    // What a step asks, after its number.
    fn asks(&mut self, words: &[u8]) -> io::Result<()> {
        self.found.clear();
        let step = self.tally.steps.wrapping_add(1);
        print!(self.out; "{step:2}")?;
        self.say("  ", words)
    }

    // What the paper says, and what was found, after the verdict.
    fn compare(&mut self, said: &[u8]) -> io::Result<()> {
        self.found.stands(&self.guest);
        let right = self.found.begins(said);
        self.tally.count(right);
        self.say("    paper says   ", said)?;
        let label = if right {
            "    as expected  "
        } else {
            "    NOT EXPECTED "
        };
        self.say(label, self.found.line())
    }

    pub fn total(&self) -> io::Result<()> {
        println!(self.out; "\n{}", self.tally)
    }
}
