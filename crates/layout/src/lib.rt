// The layout of a job file (document 01, "The job file" and "Numbers given back"): its head, its plan
// bytes and its contents entries, in the document's order of checks, with refusals 1 to 10. A file is
// looked at in its first 12 + 16 × k bytes alone, whatever it claims, and nothing is multiplied before
// it is limited. specs/Layout.antt and specs/Numbers.antt say what is right, and specs/Contents.antt
// how it is found.
#![tactic(auto)]

ghost use Rattle.std.specs.Prelude.{◌≡◌, ◌+◌, ◌*◌, ◌≤◌, ◌<◌, length};
ghost use Rattle.search.specs.First.{first_holding};
ghost use Rattle.layout.specs.Numbers.{number_of};
ghost use Rattle.layout.specs.File.{plan_of, entry_at, body_size, no_entries};
ghost use Rattle.layout.specs.Contents.{is_outside, head_verdict, faulty_byte, judged, placed, ending, entries_from, contents_of};

const LEAST_LENGTH: usize = 12;

const MOST_LENGTH: usize = 65535;

const MOST_TABLES: usize = 8;

const MOST_COLUMNS: usize = 16;

const MOST_ROWS: u32 = 4096;

// The rows of document 01's table, in its order; `number_of` in specs/Numbers.antt gives their numbers.
#[derive(Clone, Copy, Debug, PartialEq, Eq)]
pub enum Refusal {
    // The file's length is out of bounds.
    Length,
    // The number of tables is.
    Tables,
    // The file ends within the contents.
    Contents,
    // A plan byte breaks the rule.
    Plan,
    // A mask has no column, or too many.
    Mask,
    // A field count is not the number of the mask's columns.
    Fields,
    // A row count is too high.
    Rows,
    // An offset is not the running end.
    Offset,
    // A body ends past the file.
    Body,
    // Bytes are left after the last body.
    Trailing,
    // A plan position has no parent.
    Ear,
    // The mark area is shorter than the total of rows.
    MarkArea,
    // The state does not fit the job.
    State,
    // The record does not fit the job.
    Record,
    // The value area is shorter than the number of distinct columns.
    ValueArea,
}

// A refusal, with its place.
#[derive(Clone, Copy, Debug, PartialEq, Eq)]
pub struct Refused {
    pub refusal: Refusal,
    pub place: usize,
}

// The number of a refusal in document 01's table.
impl From<Refusal> for u32 {
    ghost from_gives = { λ r n. n ≡ number_of r };

    fn from(r: Refusal) -> u32 {
        match r {
            Refusal::Length => 1,
            Refusal::Tables => 2,
            Refusal::Contents => 3,
            Refusal::Plan => 4,
            Refusal::Mask => 5,
            Refusal::Fields => 6,
            Refusal::Rows => 7,
            Refusal::Offset => 8,
            Refusal::Body => 9,
            Refusal::Trailing => 10,
            Refusal::Ear => 11,
            Refusal::MarkArea => 12,
            Refusal::State => 13,
            Refusal::Record => 14,
            Refusal::ValueArea => 15,
        }
    }
}

// The four numbers of a contents entry, as other languages see them too.
#[repr(C)]
#[derive(Clone, Copy)]
pub struct Entry {
    pub fields: u32,
    pub rows: u32,
    pub mask: u32,
    pub offset: u32,
}

// An entry that is not there.
pub const NO_ENTRY: Entry = Entry {
    fields: 0,
    rows: 0,
    mask: 0,
    offset: 0,
};

// What reading the contents gives. Entries and plan bytes from k on are 0.
#[derive(Clone, Copy)]
pub struct Contents {
    pub k: usize,
    pub plan: [u8; 8],
    pub entries: [Entry; 8],
}

// Whether n is under least or over most.
fn outside(n: usize, least: usize, most: usize) -> bool
    ensures { result ≡ is_outside n least most }
{
    n < least || most < n
}

// Refusals 1 to 3, or the number of tables.
fn head(s: &[u8]) -> Result<usize, Refused>
    ensures { result ≡ head_verdict s.now }
{
    if outside(s.len(), LEAST_LENGTH, MOST_LENGTH) {
        return Err(Refused {
            refusal: Refusal::Length,
            place: 0,
        });
    }
    let k = numbers::number_at(s, 0) as usize;
    if outside(k, 1, MOST_TABLES) {
        return Err(Refused {
            refusal: Refusal::Tables,
            place: 0,
        });
    }
    if s.len() < 12 + 16 * k {
        return Err(Refused {
            refusal: Refusal::Contents,
            place: 0,
        });
    }
    Ok(k)
}

// The eight plan bytes.
fn plan_of(s: &[u8]) -> [u8; 8]
    requires { 12 ≤ length s.now }
    ensures { result ≡ plan_of s.now }
{
    let mut plan = [0; 8];
    plan.copy_from_slice(&s[4..12]);
    plan
}

// Whether the plan byte at p is faulty: below k too high or repeated, from k on not 0.
fn faulty(plan: [u8; 8], k: usize, p: usize) -> bool
    requires { p < 8 }
    ensures { result ≡ faulty_byte plan k p }
{
    let byte = plan[p];
    if k <= p {
        return byte != 0;
    }
    if k <= byte as usize {
        return true;
    }
    plan[..p].contains(&byte)
}

// The first faulty plan byte.
fn first_faulty(plan: [u8; 8], k: usize) -> Option<usize>
    ensures { result ≡ first_holding (faulty_byte plan k) 8 0 }
{
    (0..8).find(|p| faulty(plan, k, *p))
}

// The bytes of a body, once its field count and row count are limited.
fn body_size(e: Entry) -> usize
    requires { (e.fields ≤ 16) × (e.rows ≤ 4096) }
    ensures { (result ≡ body_size e) × (result ≤ 262144) }
{
    4 * (e.fields * e.rows) as usize
}

// Refusals 5 to 9 for one entry's four numbers, where len is the file's length and end the running end.
fn judge(e: Entry, len: usize, end: usize) -> Result<Entry, Refusal>
    requires { end ≤ 65535 }
    ensures { result ≡ judged e len end }
{
    let ones = columns::count(e.mask);
    let misfit = outside(ones as usize, 1, MOST_COLUMNS);
    if misfit {
        return Err(Refusal::Mask);
    }
    if e.fields != ones {
        return Err(Refusal::Fields);
    }
    if MOST_ROWS < e.rows {
        return Err(Refusal::Rows);
    }
    if e.offset as usize != end {
        return Err(Refusal::Offset);
    }
    if len < end + body_size(e) {
        return Err(Refusal::Body);
    }
    Ok(e)
}

// The four numbers of entry i, which is there.
fn entry_at(s: &[u8], i: usize) -> Entry
    requires { (i < 8) × (28 + 16 * i ≤ length s.now) }
    ensures { result ≡ entry_at s.now i }
{
    let at = 12 + 16 * i;
    Entry {
        fields: numbers::number_there(s, at),
        rows: numbers::number_there(s, at + 4),
        mask: numbers::number_there(s, at + 8),
        offset: numbers::number_there(s, at + 12),
    }
}

// Entry i: its four numbers, or its refusal with its place.
fn read_entry(s: &[u8], i: usize, end: usize) -> Result<Entry, Refused>
    requires { (i < 8) × (end ≤ 65535) × (28 + 16 * i ≤ length s.now) }
    ensures { result ≡ placed i (judged (entry_at s.now i) (length s.now) end) }
{
    judge(entry_at(s, i), s.len(), end).map_err(|refusal| Refused { refusal, place: i })
}

// After the last entry: refusal 10, or the contents.
fn finish(
    len: usize,
    end: usize,
    k: usize,
    plan: [u8; 8],
    entries: [Entry; 8],
) -> Result<Contents, Refused>
    ensures { result ≡ ending len end k plan entries }
{
    if end != len {
        return Err(Refused {
            refusal: Refusal::Trailing,
            place: 0,
        });
    }
    Ok(Contents { k, plan, entries })
}

// The k entries, one after the other.
fn read_entries(s: &[u8], k: usize, plan: [u8; 8]) -> Result<Contents, Refused>
    requires { (k ≤ 8) × (12 + 16 * k ≤ length s.now) × (length s.now ≤ 65535) }
    ensures { result ≡ entries_from s.now k plan k 0 (12 + 16 * k) no_entries }
{
    let mut entries = [NO_ENTRY; 8];
    let mut end = 12 + 16 * k;
    for i in 0..k {
        let entry = read_entry(s, i, end)?;
        entries[i] = entry;
        let size = body_size(entry);
        end += size;
    }
    finish(s.len(), end, k, plan, entries)
}

// The contents of a file, or the first of refusals 1 to 10 that applies. It is inlined into `job::read`, and that
// into its callers: each as a call of its own would write the answer once more.
#[inline(always)]
pub fn read_contents(s: &[u8]) -> Result<Contents, Refused>
    ensures { result ≡ contents_of s.now }
{
    let k = head(s)?;
    let plan = plan_of(s);
    if let Some(place) = first_faulty(plan, k) {
        return Err(Refused {
            refusal: Refusal::Plan,
            place,
        });
    }
    read_entries(s, k, plan)
}
