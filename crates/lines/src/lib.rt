// The line of a record (document 01, "The program": "for each record a line of the joined values"): its
// values' texts, copied from a table in which each value of the file stands as text once. So no digit is
// worked out twice, however many records there are.
#![tactic(auto)]

ghost use Rattle.std.specs.Prelude.{◌≡◌, ◌+◌, ◌≤◌, length};
ghost use Rattle.areas.specs.Written.{Laid};
ghost use Rattle.lines.specs.Lines.{JobOf, record_text};

use rows::Positions;
use text::Table;

// An accepted job, with its file and the table of the texts of its values.
#[derive(Clone, Copy)]
pub struct Accepted<'a> {
    pub table: Table<'a>,
    pub g: Positions,
    pub ghost job_of: { JobOf table.file.now g },
}

impl Accepted<'_> {
    // How many numbers a record has: one for each table.
    pub fn width(&self) -> usize
        ensures value { result ≡ self.now.g.k }
        ensures lower_bound { 1 ≤ result }
    {
        self.g.k
    }

    // The line of a record, laid at a place of the area; nothing where a row number is out of range. The
    // answer is the place after it.
    #[tactic(auto, using(crate::specs::LineLaws::text_out, areas::specs::Written::written_none))]
    pub fn put_record(&self, chosen: &[u32], out: &mut [u8], at: usize) -> usize
        requires { at + 385 ≤ length out.old }
        ensures laid { Laid (record_text self.now.table.file.now self.now.g chosen.now) out.old at out.new result }
        ensures upper_bound { result ≤ at + 385 }
    {
        if !values::in_range(self.g, chosen) {
            return at;
        }
        let places = values::places_of(self.g, chosen);
        self.table.put_line(&places.at[..places.n], out, at)
    }
}
