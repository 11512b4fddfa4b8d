// The list of entry records that a caller lends: what a record is, and the few thin functions that take the slice.
//
// None of them decides anything: what is put, and what is removed, is told by the caller, which is `celerycrag`. They come with a count, as C
// lends them: as many records as the plan has entries, of which the first `count` are the list. Stands on the standard library alone. Renders 02, C-18.
#![tactic(auto)]

ghost use Rattle.std.specs.Prelude.{◌≡◌, ◌<◌, ◌≤◌, length, get_or, set};
ghost use Rattle.records.specs.Listed.{none, removed, removed_at, noted, unpacked};

// An entry and its value: four bytes, and no byte between.
#[repr(C)]
#[derive(Clone, Copy)]
pub struct Record {
    pub entry: u16,
    pub value: u16,
}

// The record at a place is removed: those after it move down, and the freed last one is zeros. Its value.
pub fn remove(records: &mut [Record], count: usize, at: usize) -> u16
    requires { (at < count) × (count ≤ length records.old) }
    ensures { (result ≡ (get_or records.old at none).value) × (records.new ≡ removed records.old count at) }
{
    let value = records[at].value;
    records.copy_within(at + 1..count, at);
    records[count - 1] = Record { entry: 0, value: 0 };
    value
}

// A record's two numbers at its place of a list of numbers; nothing where they would not fit.
pub fn note(list: &mut [u16], i: usize, r: Record)
    ensures { list.new ≡ noted list.old i r.entry r.value }
{
    if i < list.len() / 2 {
        list[2 * i] = r.entry;
        list[2 * i + 1] = r.value;
    }
}

// The records as a list of numbers, two each, as far as they fit. Their number.
pub fn unpack(list: &mut [u16], records: &[Record]) -> usize
    ensures { (result ≡ length records.now) × (list.new ≡ unpacked (length records.now) 0 records.now list.old) }
{
    for (i, r) in records.iter().enumerate() {
        note(list, i, *r);
    }
    records.len()
}

// A record at a place; nothing past the end.
pub fn put(records: &mut [Record], at: usize, entry: u16, value: u16)
    ensures { records.new ≡ set records.old at (record { entry = entry; value = value }) }
{
    if at < records.len() {
        records[at] = Record { entry, value };
    }
}

// Of the first `count` records the one at a place is removed, as `remove` does it; nothing where there is none.
pub fn remove_at(records: &mut [Record], count: usize, at: usize)
    ensures { records.new ≡ removed_at records.old count at }
{
    if at < count && count <= records.len() {
        remove(records, count, at);
    }
}
