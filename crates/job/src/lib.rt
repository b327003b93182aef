// A job is read and checked (document 01, "The job file", "Numbers given back", "Ears and parents"): the
// contents of its file, then its plan. The answer is a refusal with number and place and nothing else,
// or the job: k, the plan, each entry's four numbers and each position's parent. Nothing is copied from
// the bodies, which are not looked at.
#![tactic(auto)]

ghost use Rattle.std.specs.Prelude.{◌≡◌};
ghost use Rattle.layout.specs.File.{entry_at};
ghost use Rattle.job.specs.Given.{file_masks};
ghost use Rattle.job.specs.Read.{read_answer};

use layout::{Contents, Entry, Refusal, Refused};

// An accepted job. Entries and plan bytes from k on are 0; so are the root's place among the parents
// and those from k on.
#[derive(Clone, Copy)]
pub struct Job {
    pub k: usize,
    pub plan: [u8; 8],
    pub entries: [Entry; 8],
    pub parents: [usize; 8],
}

// The mask of a table, as the file has it.
fn table_mask(s: &[u8], table: u8) -> u32
    ensures { result ≡ (entry_at s.now table).mask }
{
    numbers::number_at(s, 12 + 16 * (table as usize) + 8)
}

// The masks in plan order. They are taken from the file, since an array of entries by value is copied for
// each of them.
fn plan_masks(s: &[u8], plan: [u8; 8]) -> [u32; 8]
    ensures { result ≡ file_masks s.now plan }
{
    plan.map(|table| table_mask(s, table))
}

// The job, or the first of refusals 1 to 11 that applies. It is inlined, as `layout::read_contents` says.
#[inline(always)]
pub fn read(file: &[u8]) -> Result<Job, Refused>
    ensures { result ≡ read_answer file.now }
{
    let Contents { k, plan, entries } = layout::read_contents(file)?;
    match plan::parents_of(plan_masks(file, plan), k) {
        Ok(parents) => Ok(Job {
            k,
            plan,
            entries,
            parents,
        }),
        Err(lacking) => Err(Refused {
            refusal: Refusal::Ear,
            place: lacking.position,
        }),
    }
}
