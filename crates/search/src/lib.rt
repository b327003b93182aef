// The answer of a search through numbers: the first one that has a property, or none, as `find` gives it.
// The definition of such a search, and what it says, stand in specs/First.antt once for all searches of
// this repository; each function that searches has a contract by it. Definitions and laws alone.
#![tactic(auto)]
