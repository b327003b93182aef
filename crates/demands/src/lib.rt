// The theorem page: what is promised of the operations, as statements over the documents' definitions
// alone, each closed by a line that cites its proof, there or, for three that must-fail edits turn, in
// proofs/; the worked examples of document 01 that are proved; and the impostors that it names, refuted.
// There is no code here: specs/Reading.antt, Running.antt, Joining.antt, Natural.antt, Paper.antt,
// Examples.antt and Impostors.antt are what there is to read.
#![tactic(auto)]
