// The scope's cases that are proved, by evaluating the definitions. There is no code here.
#![tactic(auto)]
