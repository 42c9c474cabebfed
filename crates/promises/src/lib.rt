// Theorems only: what the promises of the entry points amount to together. There is no code here.
#![tactic(auto)]
