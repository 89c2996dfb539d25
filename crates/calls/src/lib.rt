#![tactic(auto)]

// From the contracts of the calls to demand 3: theorems about what the functions say of themselves. There is no code here.
