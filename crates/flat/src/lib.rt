// A state as numbers (document 01, "The steps of a run": "The state goes in by value and the next state
// is handed back"): a paused state can be kept and handed in again in another process. Its flat form is
// 14 numbers of 32 bits: the kind (0 ended, 1 advance, 2 lookup), the position, the starting row, the
// eight chosen rows, the steps, the lookups and the records. Numbers that no state has are refused as
// 13. Whether a state fits a job is not asked here: the run itself tests it, each time.
// specs/Flat.antt has both ways.
#![tactic(auto)]

ghost use Rattle.std.specs.Prelude.{◌≡◌};
ghost use Rattle.flat.specs.Flat.{kind_of, next_if, numbers_of, state_if, state_of};

use layout::{Refusal, Refused};
use treetracker::{Next, State};

// The kind of the next step.
fn kind_of(next: Next) -> u32
    ensures { result ≡ kind_of next }
{
    match next {
        Next::Ended => 0,
        Next::Advance => 1,
        Next::Lookup => 2,
    }
}

// The next step of a kind; none of one over 2.
#[tactic(auto, unfolding(crate::specs::Flat::next_of))]
fn next_of(kind: u32) -> Option<Next>
    ensures { result ≡ next_if kind }
{
    match kind {
        0 => Some(Next::Ended),
        1 => Some(Next::Advance),
        2 => Some(Next::Lookup),
        _ => None,
    }
}

// The 14 numbers of a state. One literal, in the flat form's order, which is plainer than copying the
// chosen rows into an array of zeros.
pub fn numbers_of(t: State) -> [u32; 14]
    ensures { result ≡ numbers_of t }
{
    [
        kind_of(t.next),
        t.at,
        t.start,
        t.chosen[0],
        t.chosen[1],
        t.chosen[2],
        t.chosen[3],
        t.chosen[4],
        t.chosen[5],
        t.chosen[6],
        t.chosen[7],
        t.steps,
        t.lookups,
        t.records,
    ]
}

// The state that has these numbers; none where they are no state's.
fn state_with(numbers: &[u32]) -> Option<State>
    ensures { result ≡ state_if numbers.now }
{
    let [kind, at, start, chosen @ .., steps, lookups, records] = numbers else {
        return None;
    };
    let next = next_of(*kind)?;
    let chosen = <[u32; 8]>::try_from(chosen).ok()?;
    Some(State {
        next,
        at: *at,
        start: *start,
        chosen,
        steps: *steps,
        lookups: *lookups,
        records: *records,
    })
}

// The state that has these numbers, or refusal 13.
#[tactic(auto, using(crate::specs::FlatLaws::or_refused))]
pub fn state_of(numbers: &[u32]) -> Result<State, Refused>
    ensures { result ≡ state_of numbers.now }
{
    state_with(numbers).ok_or(Refused {
        refusal: Refusal::State,
        place: 0,
    })
}
