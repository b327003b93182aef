// The program's text, laid into an area of bytes (document 01, "The program"): numbers in decimal, signed
// values, the line of a record, the last line and the line of a refusal. Each function lays its text at
// a place and gives the place after it. A record's line copies the texts of its values from a table
// that `put_texts` fills once for each file, so that no value's digits are worked out twice.
#![tactic(auto)]

ghost use Rattle.std.specs.Prelude.{◌≡◌, ℕ, ◌+◌, ◌*◌, ◌/◌, ◌≤◌, ◌<◌, length, get_or, set, map};
ghost use Rattle.numbers.specs.Numbers.{value_at};
ghost use Rattle.text.specs.Text.{text_of, signed_text, field_text, gap_text, spaced_text, line_text, count_text};
ghost use Rattle.text.specs.Text.{stopped_text, summary_text, refused_text};
ghost use Rattle.text.specs.Text.{Texts, cells_after, sizes_after, Placed};
ghost use Rattle.areas.specs.Written.{written, Laid};

// The places that the table has for one text: a sign, ten digits and one to spare.
const CELL: usize = 12;

// The bytes of src.
#[tactic(auto, using(crate::proofs::Laying::laid_copied))]
pub fn put_bytes(src: &[u8], out: &mut [u8], at: usize) -> usize
    requires { at + length src.now ≤ length out.old }
    ensures { Laid src.now out.old at out.new result }
{
    let end = at + src.len();
    out[at..end].copy_from_slice(src);
    end
}

// n in decimal, at most ten digits.
#[tactic(auto, using(crate::specs::DecimalLaws::decimal_text))]
pub fn put_number(n: u32, out: &mut [u8], at: usize) -> usize
    requires { at + 10 ≤ length out.old }
    ensures laid { Laid (text_of n) out.old at out.new result }
    ensures upper_bound { result ≤ at + 10 }
{
    let mut digits = [0u8; 20];
    let k = io::decimal(u64::from(n), &mut digits);
    put_bytes(&digits[..k], out, at)
}

// z in signed decimal, at most a sign and ten digits.
#[tactic(auto, using(crate::proofs::Laying::signs))]
pub fn put_value(z: i32, out: &mut [u8], at: usize) -> usize
    requires { at + 11 ≤ length out.old }
    ensures laid { Laid (signed_text z) out.old at out.new result }
    ensures upper_bound { result ≤ at + 11 }
{
    let size = z.unsigned_abs();
    if z < 0 {
        let digits = put_bytes(b"-", out, at);
        put_number(size, out, digits)
    } else {
        put_number(size, out, at)
    }
}

// The table's cell for the value at place 4 * w of the file.
fn put_text(file: &[u8], w: usize, cells: &mut [u8], sizes: &mut [u8])
    requires { (12 * w + 12 ≤ length cells.old) × (w < length sizes.old) }
    ensures cells_after { cells.new
        ≡ written cells.old (12 * w) (signed_text (value_at file.now (4 * w))) }
    ensures sizes_after { sizes.new
        ≡ set sizes.old w (length (signed_text (value_at file.now (4 * w)))) }
{
    let from = CELL * w;
    let end = put_value(numbers::value_at(file, 4 * w), cells, from);
    sizes[w] = (end - from) as u8;
}

// The table of the texts of a file's values. A value takes 12 places of cells and one of sizes.
#[tactic(auto, using(crate::proofs::Laying::filled))]
pub fn put_texts(file: &[u8], cells: &mut [u8], sizes: &mut [u8])
    requires { (3 * length file.now ≤ length cells.old) × (length file.now ≤ 4 * length sizes.old) }
    ensures texts { Texts file.now cells.new sizes.new }
    ensures cells_after { cells.new
        ≡ cells_after file.now cells.old (length file.now / 4) }
    ensures sizes_after { sizes.new
        ≡ sizes_after file.now sizes.old (length file.now / 4) }
{
    for w in 0..file.len() / 4 {
        put_text(file, w, cells, sizes);
    }
}

// What stands before value i of a line: a space, and before the first nothing.
#[tactic(auto, using(crate::specs::LineLaws::no_gap, areas::specs::Written::written_none, crate::specs::LineLaws::gap_later))]
fn put_gap(i: usize, out: &mut [u8], at: usize) -> usize
    requires { at < length out.old }
    ensures laid { Laid (gap_text i) out.old at out.new result }
    ensures upper_bound { result ≤ at + 1 }
{
    if i == 0 { at } else { put_bytes(b" ", out, at) }
}

// A file and the table of its values' texts, as `put_texts` fills it.
#[derive(Clone, Copy)]
pub struct Table<'a> {
    pub file: &'a [u8],
    pub cells: &'a [u8],
    pub sizes: &'a [u8],
    pub ghost texts: { Texts file.now cells.now sizes.now },
}

impl Table<'_> {
    // The text of the value at a place of the file, copied from the table.
    #[tactic(auto, using(crate::specs::DecimalLaws::value_length))]
    fn copy_text(&self, place: usize, out: &mut [u8], at: usize) -> usize
        requires placed { Placed self.now.file.now place }
        requires at_in_bounds { at + 11 ≤ length out.old }
        ensures laid { Laid (signed_text (value_at self.now.file.now place)) out.old at out.new result }
        ensures upper_bound { result ≤ at + 11 }
    {
        let w = place / 4;
        let from = CELL * w;
        let end = from + usize::from(self.sizes[w]);
        put_bytes(&self.cells[from..end], out, at)
    }

    // Value i of a line, with what stands before it.
    #[tactic(auto, using(crate::proofs::Laying::one_after_another), unfolding(crate::specs::Text::field_text))]
    fn put_field(&self, place: usize, i: usize, out: &mut [u8], at: usize) -> usize
        requires placed { Placed self.now.file.now place }
        requires at_in_bounds { at + 12 ≤ length out.old }
        ensures laid { Laid (field_text i (value_at self.now.file.now place)) out.old at out.new result }
        ensures upper_bound { result ≤ at + 12 }
    {
        let at = put_gap(i, out, at);
        self.copy_text(place, out, at)
    }

    // The values at some places, one space between.
    #[tactic(auto, using(crate::proofs::Laying::spaced))]
    fn put_fields(&self, places: &[usize], out: &mut [u8], at: usize) -> usize
        requires few { length places.now ≤ 32 }
        requires placed { (i : ℕ) → i < length places.now → Placed self.now.file.now (get_or places.now i 0) }
        requires at_in_bounds { at + 384 ≤ length out.old }
        ensures laid { Laid (spaced_text (map (value_at self.now.file.now) places.now)) out.old at out.new result }
        ensures upper_bound { result ≤ at + 384 }
    {
        let mut end = at;
        for (i, place) in places.iter().enumerate() {
            end = self.put_field(*place, i, out, end);
        }
        end
    }

    // The line of a record: the values at some places of the file.
    #[tactic(auto, using(crate::proofs::Laying::one_after_another), unfolding(crate::specs::Text::line_text))]
    pub fn put_line(&self, places: &[usize], out: &mut [u8], at: usize) -> usize
        requires few { length places.now ≤ 32 }
        requires placed { (i : ℕ) → i < length places.now → Placed self.now.file.now (get_or places.now i 0) }
        requires at_in_bounds { at + 385 ≤ length out.old }
        ensures laid { Laid (line_text (map (value_at self.now.file.now) places.now)) out.old at out.new result }
        ensures upper_bound { result ≤ at + 385 }
    {
        let at = self.put_fields(places, out, at);
        put_bytes(b"\n", out, at)
    }
}

// A word and a number.
#[tactic(auto, using(crate::proofs::Laying::one_after_another), unfolding(crate::specs::Text::count_text))]
fn put_count(word: &[u8], n: u32, out: &mut [u8], at: usize) -> usize
    requires { at + length word.now + 10 ≤ length out.old }
    ensures laid { Laid (count_text word.now n) out.old at out.new result }
    ensures upper_bound { result ≤ at + length word.now + 10 }
{
    let at = put_bytes(word, out, at);
    put_number(n, out, at)
}

// `stopped ` where the step limit stopped the run, else nothing.
#[tactic(auto, using(areas::specs::Written::laid_none), unfolding(crate::specs::Text::stopped_text))]
fn put_stopped(stopped: bool, out: &mut [u8], at: usize) -> usize
    requires { at + 8 ≤ length out.old }
    ensures laid { Laid (stopped_text stopped) out.old at out.new result }
    ensures upper_bound { result ≤ at + 8 }
{
    if stopped {
        put_bytes(b"stopped ", out, at)
    } else {
        at
    }
}

// The last line of an accepted job.
pub fn put_summary(
    stopped: bool,
    lookups: u32,
    records: u32,
    marked: u32,
    steps: u32,
    out: &mut [u8],
    at: usize,
) -> usize
    requires { at + 100 ≤ length out.old }
    ensures laid { Laid (summary_text stopped lookups records marked steps)
        out.old at out.new result }
    ensures upper_bound { result ≤ at + 100 }
{
    let at = put_stopped(stopped, out, at);
    let at = put_count(b"lookups ", lookups, out, at);
    let at = put_count(b" results ", records, out, at);
    let at = put_count(b" marked ", marked, out, at);
    let at = put_count(b" steps ", steps, out, at);
    put_bytes(b"\n", out, at)
}

// The line of a refused job.
#[tactic(auto, using(crate::proofs::Laying::one_after_another), unfolding(crate::specs::Text::refused_text))]
pub fn put_refused(number: u32, place: u32, out: &mut [u8], at: usize) -> usize
    requires { at + 40 ≤ length out.old }
    ensures laid { Laid (refused_text number place) out.old at out.new result }
    ensures upper_bound { result ≤ at + 40 }
{
    let at = put_count(b"refused ", number, out, at);
    let at = put_count(b" at ", place, out, at);
    put_bytes(b"\n", out, at)
}
