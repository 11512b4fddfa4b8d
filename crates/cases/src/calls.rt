// Each command with its answer, and after a call every byte of a part that it was lent to write.
use crate::command::Command;
use crate::held::Held;
use plan::Refusal;
use std::fmt::Display;
use std::io;
use store::{Filed, Settled};

// A line of an answer: what it is, and a number.
fn say(rt: &impl Print, name: &str, number: usize) -> io::Result<()> {
    println!(rt; "= {name} {number}")
}

// The line of a call without values: its number, 0 where it is accepted.
fn say_number(rt: &impl Print, answer: Result<(), Refusal>) -> io::Result<()> {
    say(rt, "number", plan::number_of(answer) as usize)
}

// The line of a refusal where a call with values was accepted or refused.
fn say_refused(rt: &impl Print, refusal: Refusal) -> io::Result<()> {
    say(rt, "refused", refusal.number() as usize)
}

// A line with every number of a part.
fn list<T: Display>(rt: &impl Print, name: &str, part: &[T]) -> io::Result<()> {
    print!(rt; "= {name}")?;
    for number in part {
        print!(rt; " {number}")?;
    }
    rt.println("")
}

// How many of these are no longer nines.
fn changed(nines: &[u8]) -> usize {
    let mut count: usize = 0;
    for byte in nines {
        if *byte != 9 {
            count += 1;
        }
    }
    count
}

// A text printed into the first bytes of these nines: the output, and how many bytes behind it have changed.
fn print_into(rt: &impl Print, text: &[u8], room: usize, nines: &mut [u8]) -> io::Result<()> {
    let room = room.min(nines.len());
    let end = text::print_text(text, &mut nines[..room]);
    let (printed, behind) = nines.split_at(end.min(nines.len()));
    say(rt, "length", end)?;
    rt.write_all(printed)?;
    say(rt, "changed behind it", changed(behind))
}

impl Held {
    // Does what a command says, and prints the answer. (Not inlined: a line of the text would pay for what the calls hold.)
    #[inline(never)]
    pub fn obey(&mut self, rt: &impl Print, command: Command<'_>) -> io::Result<()> {
        match command {
            Command::Plan { p, s, n, m, t } => {
                self.plan.p = p;
                self.plan.s = s;
                self.plan.n = n;
                self.plan.m = m;
                self.plan.t = t;
                Ok(())
            }
            Command::Set(part, numbers) => {
                self.set(part, numbers);
                Ok(())
            }
            Command::CheckPlan => self.check_plan(rt),
            Command::RowOf(entry) => self.row_of(rt, entry),
            Command::TestStore => self.test_store(rt),
            Command::File { entry, value } => self.file(rt, entry, value),
            Command::ReadOff => self.read_off(rt),
            Command::Settle(entry) => self.settle(rt, entry),
            Command::CheckWriting => self.check_writing(rt),
            Command::WriteInto => self.write_into(rt),
            Command::Write => self.write(rt),
            Command::Run => self.run(rt),
            Command::WorstNorm => self.worst_norm(rt),
            Command::ReadSteps => self.read_steps(rt),
            Command::ReadListing => self.read_listing(rt),
            Command::PrintText { room } => self.print_text(rt, room),
            Command::ToHalf => self.to_half(rt),
            Command::ToFull => self.to_full(rt),
            Command::General => self.general(rt),
        }
    }

    // The check of the plan.
    fn check_plan(&self, rt: &impl Print) -> io::Result<()> {
        let lent = self.plan.lent();
        say_number(rt, plan::check(&lent))
    }

    // The row of an entry.
    fn row_of(&mut self, rt: &impl Print, entry: usize) -> io::Result<()> {
        let lent = self.plan.lent();
        let row = self.row.as_mut_slice();
        say_number(rt, plan::row(&lent, entry, row))?;
        list(rt, "row", row)
    }

    // The test of the store.
    fn test_store(&self, rt: &impl Print) -> io::Result<()> {
        let lent = self.plan.lent();
        let store = self.store.as_slice();
        say_number(rt, store::test(&lent, store))
    }

    // A filing.
    fn file(&mut self, rt: &impl Print, entry: usize, value: usize) -> io::Result<()> {
        let lent = self.plan.lent();
        let store = self.store.as_mut_slice();
        match store::file(&lent, store, entry, value) {
            Ok(Filed::New(column)) => say(rt, "new", column)?,
            Ok(Filed::Implied) => rt.println("= implied")?,
            Err(refusal) => say_refused(rt, refusal)?,
        }
        list(rt, "store", store)
    }

    // The coefficients read off the store.
    fn read_off(&mut self, rt: &impl Print) -> io::Result<()> {
        let lent = self.plan.lent();
        let store = self.store.as_slice();
        let beta = self.beta.as_mut_slice();
        say_number(rt, store::coefficients(&lent, store, beta))?;
        list(rt, "beta", beta)?;
        list(rt, "store", store)
    }

    // How an entry stands.
    fn settle(&self, rt: &impl Print, entry: usize) -> io::Result<()> {
        let lent = self.plan.lent();
        let store = self.store.as_slice();
        match store::settle(&lent, store, entry) {
            Ok(Settled::Forced(residue)) => say(rt, "forced", residue as usize),
            Ok(Settled::Free(column)) => say(rt, "free", column),
            Err(refusal) => say_refused(rt, refusal),
        }
    }

    // The check of a writing.
    fn check_writing(&self, rt: &impl Print) -> io::Result<()> {
        let lent = self.plan.lent();
        let beta = self.beta.as_slice();
        let steps = self.steps.as_slice();
        say_number(rt, program::check_writing(&lent, beta, steps))
    }

    // The writer into the whole slice.
    fn write_into(&mut self, rt: &impl Print) -> io::Result<()> {
        let lent = self.plan.lent();
        let beta = self.beta.as_slice();
        let steps = self.steps.as_mut_slice();
        let answer = program::write_into(&lent, beta, steps);
        say_number(rt, answer.map(|_length| ()))?;
        list(rt, "steps", steps)
    }

    // The writer that hands a part back; where its loan has ended, the whole slice is printed.
    fn write(&mut self, rt: &impl Print) -> io::Result<()> {
        let lent = self.plan.lent();
        let beta = self.beta.as_slice();
        let steps = self.steps.as_mut_slice();
        let part = program::write(&lent, beta, steps);
        say(rt, "length", part.len())?;
        list(rt, "steps", steps)
    }

    // A run.
    fn run(&self, rt: &impl Print) -> io::Result<()> {
        let lent = self.plan.lent();
        let steps = self.steps.as_slice();
        let digits = self.digits.as_slice();
        match program::run(&lent, steps, digits) {
            Ok(ran) => {
                say(rt, "y", ran.y as usize)?;
                say(rt, "bootstraps", ran.bootstraps)
            }
            Err(refusal) => say_refused(rt, refusal),
        }
    }

    // The worst norm.
    fn worst_norm(&self, rt: &impl Print) -> io::Result<()> {
        let lent = self.plan.lent();
        let beta = self.beta.as_slice();
        match listing::worst_norm(&lent, beta) {
            Ok(norm) => say(rt, "norm", norm),
            Err(refusal) => say_refused(rt, refusal),
        }
    }

    // The coefficients from the steps.
    fn read_steps(&mut self, rt: &impl Print) -> io::Result<()> {
        let lent = self.plan.lent();
        let steps = self.steps.as_slice();
        let beta = self.beta.as_mut_slice();
        say_number(rt, readback::read_steps(&lent, steps, beta))?;
        list(rt, "beta", beta)
    }

    // The coefficients from the text; then the text is empty.
    fn read_listing(&mut self, rt: &impl Print) -> io::Result<()> {
        let lent = self.plan.lent();
        let text = self.text.as_slice();
        let beta = self.beta.as_mut_slice();
        match readback::read_listing(&lent, text, beta) {
            Ok(()) => rt.println("= read")?,
            Err(unread) => {
                say_refused(rt, unread.refusal)?;
                if let Some(line) = unread.line {
                    say(rt, "line", line)?;
                }
            }
        }
        self.text.clear();
        list(rt, "beta", self.beta.as_slice())
    }

    // The text printed into the first bytes of 131,072 nines. Then the text is empty. (Not inlined: each call would pay for the nines.)
    #[inline(never)]
    fn print_text(&mut self, rt: &impl Print, room: usize) -> io::Result<()> {
        let mut nines = [9; 131072];
        print_into(rt, self.text.as_slice(), room, &mut nines)?;
        self.text.clear();
        Ok(())
    }

    // The store moved to the new layout.
    fn to_half(&mut self, rt: &impl Print) -> io::Result<()> {
        let lent = self.plan.lent();
        let full = self.full.as_slice();
        let store = self.store.as_mut_slice();
        say_number(rt, moves::to_half(&lent, full, store))?;
        list(rt, "store", store)
    }

    // The store moved to the layout before.
    fn to_full(&mut self, rt: &impl Print) -> io::Result<()> {
        let lent = self.plan.lent();
        let store = self.store.as_slice();
        let full = self.full.as_mut_slice();
        say_number(rt, moves::to_full(&lent, store, full))?;
        list(rt, "full", full)
    }

    // Whether the plan suits every table; the store is lent as the work store.
    fn general(&mut self, rt: &impl Print) -> io::Result<()> {
        let lent = self.plan.lent();
        let work = self.store.as_mut_slice();
        match general::general(&lent, work) {
            Ok(true) => rt.println("= yes")?,
            Ok(false) => rt.println("= no")?,
            Err(refusal) => say_refused(rt, refusal)?,
        }
        list(rt, "store", work)
    }
}
