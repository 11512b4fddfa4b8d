// A list of records as numbers, and as pairs of them: an entry and its value each.
ghost use Rattle.std.specs.Prelude.{◌≡◌, ◌&&◌, ◌*◌, ◌≤◌, length, replicate};
ghost use Rattle.ledger.specs.Lists as lists;
ghost use Rattle.ledger.specs.Stages as stages;

use plan::Plan;

// Room for the records of every plan.
pub fn list_buffer() -> [u16; 2 * Plan::ENTRIES]
    ensures { length result ≡ 2 * stages.entries_most }
{
    [0; 2 * Plan::ENTRIES]
}

// The first `count` pairs of such a list.
pub fn first_pairs(list: &[u16], count: usize) -> &[[u16; 2]]
    requires { 2 * count ≤ length list.now }
    ensures value { stages.as_pairs result.now ≡ stages.pairs count list.now }
    ensures len { length result.now ≡ count }
{
    let (pairs, _) = list.as_chunks::<2>();
    &pairs[..count]
}

// Whether each entry is below n, each value below s, and no entry stands twice. `seen` has a mark for each entry, none of them set. (The marks are
// numbers, 0 and 1, since `Rests.well-next` speaks of a list of them.)
pub fn well_listed(pairs: &[[u16; 2]], n: usize, s: u8, seen: &mut [u8]) -> bool
    requires n_in_bounds { n ≤ length seen.old }
    requires seen_value { seen.old ≡ replicate (length seen.old) 0 }
    ensures { result ≡ (stages.ranged n s (stages.as_pairs pairs.now) && lists.distinct (stages.as_pairs pairs.now)) }
{
    for [entry, value] in pairs {
        let entry = usize::from(*entry);
        if n <= entry || u16::from(s) <= *value || seen[entry] != 0 {
            return false;
        }
        seen[entry] = 1;
    }
    true
}

// The place of an entry in the list, where it is listed.
pub fn find(pairs: &[[u16; 2]], entry: usize) -> Option<usize>
    ensures { result ≡ stages.first_at pairs.now entry }
{
    pairs.iter().position(|pair| usize::from(pair[0]) == entry)
}
