// Definitions and theorems only: what document 01 says. There is no code here.
#![tactic(auto)]
