// Lists as loops leave them: an array filled place by place, the front of one list copied over another,
// and a list written over an area at a place. Definitions and laws alone, said once for all crates.
#![tactic(auto)]
