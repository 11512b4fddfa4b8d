// How an entry stands on a store in reduced form: forced with a residue, or free with a column (02, C-12).
//
// A column without a pivot is cleared by the rows above its own alone, so its value is one sum down the column. The search goes by such sums
// from the left and stops at the first that is not 0; where it would look at more places than a row cleared in one piece is worth, the
// whole row is cleared as for filing.
ghost use Rattle.std.specs.Prelude.{◌≡◌, ◌≤◌, ◌<◌, length, IfSome, unwrap_or};
ghost use Rattle.lists.specs.Places.{at};
ghost use Rattle.plan.specs.Numbers.{columns};
ghost use Rattle.plan.specs.Lending.{whole};
ghost use Rattle.store.specs.Elimination as elimination;
ghost use Rattle.store.specs.Elimination.{cells};
ghost use Rattle.store.specs.Stages.{Ready, NextFree};
ghost use Rattle.store.specs.Settled as specs;

use crate::against::Against;
use crate::elimination::{entry_equation, lead, opposite};
use plan::{CheckedPlan, Plan};

// What settling answers: the residue that all coefficients give, or the first column that leaves it open.
#[derive(Clone, Copy, Debug, PartialEq, Eq)]
pub enum Settled {
    Forced(u8),
    Free(usize),
}

impl Against<'_> {
    // The first column from `from` on that has no pivot: a row with 0 on the diagonal has none.
    fn next_free(&self, from: usize) -> Option<usize>
        requires { from ≤ self.now.c }
        ensures column { IfSome result (λ q. q < self.now.c) }
        ensures next { NextFree self.now.c (cells self.now.c self.now.store.now) from (unwrap_or result self.now.c) }
    {
        let mut a = from * (2 * self.c + 1 - from) / 2 + from;
        for q in from..self.c {
            if self.store[a] == 0 {
                return Some(q);
            }
            a += self.c + 1 - q;
        }
        None
    }

    // Place q of the residual of e, for a column without a pivot or, where q is c, the right-hand side: the rows from q on have nothing there. C
    // products of two residues fit in 32 bits.
    fn residue(&self, q: usize) -> u8
        requires q_le_c { q ≤ self.now.c }
        requires q_value { q < self.now.c → cells self.now.c self.now.store.now q q ≡ 0 }
        ensures { result ≡ elimination.residual self.now.p self.now.c (cells self.now.c self.now.store.now) (at self.now.e.now) q }
    {
        let mut sum = self.e[q] as u32;
        let mut a = q;
        for i in 0..q {
            let f = (self.p - self.e[i]) as u32;
            sum += f * (self.store[a] as u32);
            a += self.c - i;
        }
        (sum % (self.p as u32)) as u8
    }

    // How e stands, by the first column at which its residual is not 0; none where the search for it would look at more than four places a
    // column. (A while let: from column without a pivot to column without a pivot, as `next_free` finds them.)
    fn search(&self) -> Option<Settled>
        ensures { IfSome result (λ s. specs.told s ≡ specs.values_of (specs.standing self.now.p self.now.c (cells self.now.c self.now.store.now) (at self.now.e.now))) }
    {
        let mut places = 4 * self.c;
        let mut from: usize = 0;
        while let Some(q) = self.next_free(from) {
            if places < q {
                return None;
            }
            if self.residue(q) != 0 {
                return Some(Settled::Free(q));
            }
            places -= q;
            from = q + 1;
        }
        Some(Settled::Forced(opposite(self.residue(self.c), self.p)))
    }

    // How e stands, by clearing the whole row.
    fn settle_whole(&self) -> Settled
        ensures { specs.told result ≡ specs.values_of (specs.standing self.now.p self.now.c (cells self.now.c self.now.store.now) (at self.now.e.now)) }
    {
        let mut res = [0u8; Plan::COLUMNS + 1];
        let width = self.c + 1;
        self.residual(&mut res[..width]);
        match lead(&res[..self.c]) {
            Some(k) => Settled::Free(k),
            None => Settled::Forced(opposite(res[self.c], self.p)),
        }
    }

    // How e stands.
    fn settle(&self) -> Settled
        ensures { specs.told result ≡ specs.values_of (specs.standing self.now.p self.now.c (cells self.now.c self.now.store.now) (at self.now.e.now)) }
    {
        match self.search() {
            Some(standing) => standing,
            None => self.settle_whole(),
        }
    }
}

// How entry `entry` stands: its equation with 0 for the value.
pub fn settle_entry(plan: &CheckedPlan, store: &[u8], entry: usize) -> Settled
    requires { Ready plan.now.numbers.p (columns plan.now.numbers) store.now }
    ensures { specs.told result ≡ specs.values_of (specs.standing_of (whole plan.now) store.now entry) }
{
    let mut e = [0u8; Plan::COLUMNS + 1];
    let c = plan.columns();
    let width = c + 1;
    entry_equation(plan, entry, 0, &mut e[..width]);
    let against = Against {
        store,
        e: &e[..width],
        c,
        p: plan.numbers.p,
    };
    against.settle()
}
