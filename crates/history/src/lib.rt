#![tactic(auto)]

// Where every right came from, and who changed a byte: theorems about the rules. There is no code here.
