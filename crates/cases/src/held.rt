// What the lines have set: the plan, the parts and the text, each as long as it was set.
ghost use Rattle.std.specs.Prelude.{◌≡◌, ◌≤◌, length};

use crate::command::{MOST, Numbers, Part};
use arrayvec::ArrayVec;
use plan::LentPlan;
use std::io;
use std::io::Write;

// The most bytes of the text.
const TEXT_ROOM: usize = 2048;

// A plan: its five numbers, and its four parts as they are lent.
#[derive(Drop)]
pub struct Plan {
    pub p: usize,
    pub s: usize,
    pub n: usize,
    pub m: usize,
    pub t: usize,
    pub radices: ArrayVec<u8, MOST>,
    pub weights: ArrayVec<u8, MOST>,
    pub tables: ArrayVec<u8, MOST>,
    pub products: ArrayVec<u8, MOST>,
}

impl Plan {
    // The plan as a call takes it.
    pub fn lent(&self) -> LentPlan<'_> {
        LentPlan {
            p: self.p,
            s: self.s,
            n: self.n,
            m: self.m,
            t: self.t,
            radices: self.radices.as_slice(),
            weights: self.weights.as_slice(),
            tables: self.tables.as_slice(),
            products: self.products.as_slice(),
        }
    }
}

// All that is set.
#[derive(Drop)]
pub struct Held {
    pub plan: Plan,
    pub text: ArrayVec<u8, TEXT_ROOM>,
    pub digits: ArrayVec<u8, MOST>,
    pub row: ArrayVec<u8, MOST>,
    pub store: ArrayVec<u8, MOST>,
    pub beta: ArrayVec<u8, MOST>,
    pub full: ArrayVec<u8, MOST>,
    pub steps: ArrayVec<u16, MOST>,
}

// Writes numbers over as many places, each cut to what they can hold.
fn write_over<T: Drop, F: Fn(usize) -> T>(places: &mut [T], numbers: &[usize], cut: F)
    requires { F.IsAlwaysCallable cut }
    ensures { length places.new ≡ length places.old }
{
    for (place, number) in places.iter_mut().zip(numbers) {
        *place = cut(*number);
    }
}

// Sets a part to the numbers, each cut to what it can hold: first the places that it has, then those behind them.
fn set_part<T: Default + Drop, F: Fn(usize) -> T>(
    part: &mut ArrayVec<T, MOST>,
    numbers: &[usize],
    cut: F,
)
    requires callable { F.IsAlwaysCallable cut }
    requires room { length numbers.now ≤ MOST }
{
    part.truncate(numbers.len());
    write_over(part.as_mut_slice(), numbers, &cut);
    for number in &numbers[part.len()..] {
        part.push(cut(*number));
    }
}

// Sets a part to the numbers, each modulo 256.
fn set_bytes(part: &mut ArrayVec<u8, MOST>, numbers: &Numbers) {
    set_part(part, numbers.as_slice(), |number| (number % 256) as u8);
}

// Sets the step slice to the numbers, each modulo 65,536.
fn set_steps(steps: &mut ArrayVec<u16, MOST>, numbers: &Numbers) {
    set_part(steps, numbers.as_slice(), |number| (number % 65536) as u16);
}

impl Held {
    // Every number 0, and every part empty.
    pub fn new() -> Held {
        Held {
            plan: Plan {
                p: 0,
                s: 0,
                n: 0,
                m: 0,
                t: 0,
                radices: ArrayVec::new(),
                weights: ArrayVec::new(),
                tables: ArrayVec::new(),
                products: ArrayVec::new(),
            },
            text: ArrayVec::new(),
            digits: ArrayVec::new(),
            row: ArrayVec::new(),
            store: ArrayVec::new(),
            beta: ArrayVec::new(),
            full: ArrayVec::new(),
            steps: ArrayVec::new(),
        }
    }

    // Sets a part.
    pub fn set(&mut self, part: Part, numbers: &Numbers) {
        match part {
            Part::Radices => set_bytes(&mut self.plan.radices, numbers),
            Part::Weights => set_bytes(&mut self.plan.weights, numbers),
            Part::Tables => set_bytes(&mut self.plan.tables, numbers),
            Part::Products => set_bytes(&mut self.plan.products, numbers),
            Part::Digits => set_bytes(&mut self.digits, numbers),
            Part::Row => set_bytes(&mut self.row, numbers),
            Part::Store => set_bytes(&mut self.store, numbers),
            Part::Beta => set_bytes(&mut self.beta, numbers),
            Part::Full => set_bytes(&mut self.full, numbers),
            Part::Steps => set_steps(&mut self.steps, numbers),
        }
    }

    // Adds bytes to the text; what has no room is left out.
    pub fn add_text(&mut self, line: &[u8]) -> io::Result<()> {
        let _fits = self.text.write(line)?;
        Ok(())
    }
}
